ghost use Rattle.std.specs.Prelude.{ℕ, ◌≡◌, ◌<◌, ◌≤◌, All, IfOk, Some, map};
ghost use Rattle.std.specs.List.{range_with_len};
ghost use Rattle.cpu_table.specs.Data.{data_of};
ghost use Rattle.rendezvous_core.specs.Platforms.{HasProcessorOf};
ghost use Rattle.rendezvous_core.specs.Worlds.{is_complete, last_image};
ghost use Rattle.replay_report.specs.Plan.{plan_of, IsPlayable};
ghost use Rattle.replay_report.specs.Replays.{replayed, AreImagesAfter};

use crate::inputs::Inputs;
use cpu_table::Setup;
use rendezvous_core::{World, schedule_laws};
use save_state_map::Image;
use smm_base::NoMemory;
use std::alloc::Global;
use std::marker::Model;
use sync_words::Event;

/// The replay of a whole schedule.
#[derive(Drop)]
pub struct Replay {
    world: World,
    images: Vec<Image>,
}

impl Model for Replay {
    ghost use Rattle.replay_report.specs.Replays.{Replayed};

    ghost Value = { Replayed };

    ghost use Rattle.replay_report.specs.ReplayInside.{replayed_in};

    ghost view = { replayed_in };
}

impl Replay {
    /// What a replay leaves that came to a world of the setup.
    pub fn of_world(alloc: Global, world: World, setup: &Setup) -> Result<Replay, NoMemory>
        requires processors { setup.now.processors ≤ world.processors }
        requires platform { (i : ℕ) → i < setup.now.processors → HasProcessorOf (data_of setup.now) world.world i }
        ensures events { IfOk result (λ r. r.events ≡ world.events) }
        ensures complete { IfOk result (λ r. r.complete ≡ is_complete world.world) }
        ensures each { IfOk result (λ r. map Some r.images ≡ map (last_image world.world) (range_with_len 0 setup.now.processors)) }
        ensures kind { IfOk result (λ r. All (λ image. image.kind ≡ setup.now.kind) r.images) }
    {
        let images = images_after(alloc, &world, setup)?;
        Ok(Replay { world, images })
    }

    /// The events in their order.
    pub fn events(&self) -> &Vec<Event>
        ensures { result.now.items ≡ self.now.events }
    {
        self.world.events()
    }

    /// Is every actor off?
    pub fn complete(&self) -> bool
        ensures { result ≡ self.now.complete }
    {
        self.world.complete()
    }

    /// The images that the processors last resumed from, by number.
    pub fn images(&self) -> &Vec<Image>
        ensures { result.now.items ≡ self.now.images }
    {
        &self.images
    }
}

// The images after of all processors of a setup, by number.
fn images_after(alloc: Global, world: &World, setup: &Setup) -> Result<Vec<Image>, NoMemory>
    requires processors { setup.now.processors ≤ world.now.processors }
    requires platform { (i : ℕ) → i < setup.now.processors → HasProcessorOf (data_of setup.now) world.now.world i }
    ensures each { IfOk result (λ images. map Some images.items ≡ map (last_image world.now.world) (range_with_len 0 setup.now.processors)) }
    ensures kind { IfOk result (λ images. All (λ image. image.kind ≡ setup.now.kind) images.items) }
{
    let processors = setup.processors;
    let mut images = Vec::with_capacity(alloc, processors as usize)?;
    for i in 0..processors {
        images.push(*world.after(i))?;
    }
    Ok(images)
}

/// The replay of the inputs, from the platform's start.
pub fn replay_of(alloc: Global, inputs: &Inputs) -> Result<Replay, NoMemory>
    requires playable { IsPlayable (plan_of inputs.now) }
    ensures replayed { IfOk result (λ r. r ≡ replayed (plan_of inputs.now)) }
    ensures images { IfOk result (λ r. AreImagesAfter (plan_of inputs.now) r.images) }
{
    schedule_laws();
    match rendezvous_core::replay(alloc, &inputs.setup, &inputs.images, &inputs.actors) {
        Ok(world) => Replay::of_world(alloc, world, &inputs.setup),
        Err(_) => Err(NoMemory),
    }
}
