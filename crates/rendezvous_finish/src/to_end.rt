ghost use Rattle.std.specs.Prelude.{◌≡◌, ◌≤◌, ◌++◌, All, IfOk, IfErr, OnOk, None, true};
ghost use Rattle.cpu_table.specs.Data.{data_of};
ghost use Rattle.rendezvous_core.specs.Starts.{AreImagesOf, first_registers, start_refusal, IsRefusedBy};
ghost use Rattle.rendezvous_core.specs.Worlds.{is_complete, replay_events, replay_world};
ghost use Rattle.rendezvous_core.specs.Finishes.{rounds, actors_of, played_on, HasRoomForAll, IsPrefix, IsReplayOf};
ghost use Rattle.rendezvous_finish.specs.Finishes.{AreAtMost, IsReached};

use cpu_table::Setup;
use rendezvous_core::{World, WorldError};
use save_state_map::Image;
use std::alloc::Global;

// The world after a schedule more, and then rounds until all are off.
fn carried_on(mut world: World, setup: &Setup, schedule: &Vec<u16>) -> World
    requires reached { IsReached setup.now world }
    requires has_room { HasRoomForAll world }
    requires known { All (λ actor. actor ≤ world.processors) schedule.now.items }
    ensures complete { is_complete result.world ≡ true }
    ensures played { result ≡ played_on (played_on world schedule.now.items) (rounds setup.now.processors world.room) }
{
    world.play(schedule.as_slice());
    world.finish();
    world
}

/// The replay of a schedule, as [`rendezvous_core::replay`] makes it, and then of rounds of all actors until every one is
/// off. There is room for the events of every schedule. It is refused exactly as [`World::new`] is.
pub fn replay_to_end(
    alloc: Global,
    setup: &Setup,
    images: &Vec<Image>,
    schedule: &Vec<u16>,
    room: usize,
) -> Result<World, WorldError>
    requires images { AreImagesOf (data_of setup.now) images.now.items }
    requires known { All (λ actor. actor ≤ setup.now.processors) schedule.now.items }
    requires has_room { AreAtMost (data_of setup.now) (first_registers (data_of setup.now) images.now.items) images.now.items room }

    // It is the replay of the schedule and of as many rounds as there is room for events, since where all are off a round
    // changes nothing.
    ensures world { IfOk result (λ w. w.world ≡ replay_world (data_of setup.now) (first_registers (data_of setup.now) images.now.items) images.now.items (schedule.now.items ++ rounds setup.now.processors room)) }
    ensures events { IfOk result (λ w. w.events ≡ replay_events (data_of setup.now) (first_registers (data_of setup.now) images.now.items) images.now.items (schedule.now.items ++ rounds setup.now.processors room)) }
    ensures processors { IfOk result (λ w. w.processors ≡ setup.now.processors) }

    ensures complete { IfOk result (λ w. is_complete w.world ≡ true) }
    // The events of the schedule come first.
    ensures begins { IfOk result (λ w. IsPrefix (replay_events (data_of setup.now) (first_registers (data_of setup.now) images.now.items) images.now.items schedule.now.items) w.events) }
    // It is the replay of the actors of its own events.
    ensures replayed { IfOk result (λ w. IsReplayOf (data_of setup.now) (first_registers (data_of setup.now) images.now.items) images.now.items (actors_of w.events) w) }

    ensures relocatable { OnOk result (start_refusal (data_of setup.now) images.now.items ≡ None) }
    ensures refused { IfErr result (IsRefusedBy (start_refusal (data_of setup.now) images.now.items)) }
{
    match World::new(alloc, setup, images, room) {
        Ok(world) => Ok(carried_on(world, setup, schedule)),
        Err(error) => Err(error),
    }
}
