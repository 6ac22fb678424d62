ghost use Rattle.std.specs.Prelude.{◌≡◌, ◌≤◌, ◌+◌, ◌++◌, All, IfOk, IfErr, OnOk, None, length};
ghost use Rattle.cpu_table.specs.Data.{data_of};
ghost use Rattle.rendezvous_core.specs.Starts.{AreImagesOf, first_registers, start_refusal, IsRefusedBy};
ghost use Rattle.rendezvous_core.specs.Worlds.{events_from, world_after, replay_events, replay_world};

use crate::error::WorldError;
use crate::world::World;
use cpu_table::Setup;
use save_state_map::Image;
use std::alloc::Global;

/// The steps of a schedule, for which there is room.
fn play(mut world: World, schedule: &[u16]) -> World
    requires known { All (λ actor. actor ≤ world.processors) schedule.now }
    requires has_room { length world.events + length schedule.now ≤ world.room }
    ensures world { result.world ≡ world_after world.world schedule.now }
    ensures events { result.events ≡ world.events ++ events_from world.world schedule.now }
    ensures processors { result.processors ≡ world.processors }
    ensures room { result.room ≡ world.room }
{
    for actor in schedule {
        let _ = world.advance(*actor);
    }
    world
}

/// The world after a schedule, with the events that led to it, on a platform, from an image for each processor, of the
/// platform's kind. An actor of the schedule is a processor's number, or the number of processors for the chipset; one
/// that waits or is off adds nothing. There is room for the schedule. It is refused exactly as [`World::new`] is.
pub fn replay(
    alloc: Global,
    setup: &Setup,
    images: &Vec<Image>,
    schedule: &Vec<u16>,
) -> Result<World, WorldError>
    requires images { AreImagesOf (data_of setup.now) images.now.items }
    requires known { All (λ actor. actor ≤ setup.now.processors) schedule.now.items }
    ensures world { IfOk result (λ w. w.world ≡ replay_world (data_of setup.now) (first_registers (data_of setup.now) images.now.items) images.now.items schedule.now.items) }
    ensures events { IfOk result (λ w. w.events ≡ replay_events (data_of setup.now) (first_registers (data_of setup.now) images.now.items) images.now.items schedule.now.items) }
    ensures processors { IfOk result (λ w. w.processors ≡ setup.now.processors) }
    ensures room { IfOk result (λ w. w.room ≡ length schedule.now.items) }
    ensures relocatable { OnOk result (start_refusal (data_of setup.now) images.now.items ≡ None) }
    ensures refused { IfErr result (IsRefusedBy (start_refusal (data_of setup.now) images.now.items)) }
{
    match World::new(alloc, setup, images, schedule.len()) {
        Ok(world) => Ok(play(world, schedule.as_slice())),
        Err(error) => Err(error),
    }
}
