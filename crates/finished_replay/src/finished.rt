ghost use Rattle.std.specs.Prelude.{◌≡◌, IfOk};
ghost use Rattle.cpu_table.specs.Data.{data_of};
ghost use Rattle.replay_report.specs.Plan.{plan_of, IsPlayable};
ghost use Rattle.replay_report.specs.Replays.{replayed, AreImagesAfter};
ghost use Rattle.finished_replay.specs.Finished.{room_of, finished, ReachesEnd};

use bound_laws::every_schedule_is_bounded;
use cpu_table::Setup;
use rendezvous_core::schedule_laws;
use rendezvous_finish::{finish_laws, replay_to_end};
use replay_report::{Inputs, Replay};
use smm_base::NoMemory;
use std::alloc::Global;

// How many events there can be on a platform: the product of its limits.
fn room_of(setup: &Setup) -> usize
    ensures { result ≡ room_of (data_of setup.now) }
{
    let processors = usize::from(setup.processors);
    let looks = setup.t1 as usize + setup.t2 as usize;
    let visit = 40 + looks + 10 * processors + 5 * setup.ops as usize;
    setup.visits as usize * visit * (processors + 1)
}

/// The replay of the inputs' schedule, and then of rounds of all actors until every one is off.
pub fn finished_replay_of(alloc: Global, inputs: &Inputs) -> Result<Replay, NoMemory>
    requires playable { IsPlayable (plan_of inputs.now) }
    ensures replayed { IfOk result (λ r. r ≡ replayed (finished (plan_of inputs.now))) }
    ensures images { IfOk result (λ r. AreImagesAfter (finished (plan_of inputs.now)) r.images) }
    ensures ends { ReachesEnd (plan_of inputs.now) }
{
    every_schedule_is_bounded();
    finish_laws();
    schedule_laws();
    let room = room_of(&inputs.setup);
    match replay_to_end(alloc, &inputs.setup, &inputs.images, &inputs.actors, room) {
        Ok(world) => Replay::of_world(alloc, world, &inputs.setup),
        Err(_) => Err(NoMemory),
    }
}
