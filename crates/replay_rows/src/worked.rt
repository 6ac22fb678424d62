ghost use Rattle.replay_rows.specs.Platforms.{plain, two_waves, fixed_delayed, fixed_absent, with_jobs};
ghost use Rattle.replay_rows.specs.Schedules.{late, gives_up, slow, signalled, in_vain, busy};
ghost use Rattle.replay_rows.specs.Replays.{Says, SaysInEssence, late_labels, gives_up_labels, slow_labels, signalled_labels, in_vain_labels, busy_labels};

/// What two processors and the chipset say by six schedules, as it was worked out by hand, whatever registers they begin
/// with, and whatever bytes in their Intel 64 images.
#[tactic(auto, using(crate::proofs::Computed::late, crate::proofs::GivingUp::gives_up, crate::proofs::Slow::slow, crate::proofs::Computed::signalled, crate::proofs::Computed::in_vain, crate::proofs::Launching::busy))]
pub fn worked_replays()
    // A processor that comes after the lock waits outside the session.
    ensures late { Says plain late late_labels }
    // A processor that gives up and finds the counter locked goes on as counted, and reports.
    ensures gives_up { SaysInEssence plain gives_up gives_up_labels }
    // A processor that is slow to leave stays out of the next session, and turns back at its next visit.
    ensures slow { SaysInEssence two_waves slow slow_labels }
    // A fixed BSP that was delayed comes by the signal, and the other reports to it.
    ensures signalled { Says fixed_delayed signalled signalled_labels }
    // Where a fixed BSP stays away, the other gives up and resumes.
    ensures in_vain { Says fixed_absent in_vain in_vain_labels }
    // A processor refuses a job while it has one, runs the one that it has, and is given the next.
    ensures busy { SaysInEssence with_jobs busy busy_labels }
{}
