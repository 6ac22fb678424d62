ghost use Rattle.rendezvous_core.specs.Platforms.{KeepsPlatform};
ghost use Rattle.rendezvous_core.specs.Laws.{AppendsEvents, AppendsWorld, StaysWithoutEvent, KeepsActors};

/// The laws of steps and schedules. It does nothing when it runs.
#[tactic(auto, using(crate::proofs::Scheduling::events_append, crate::proofs::Scheduling::world_append, crate::proofs::Scheduling::step_stays, crate::proofs::Scheduling::step_actors, crate::proofs::PlatformLemmas::replayed_of))]
pub fn schedule_laws()
    // The events of a schedule are those of its first part, and then those of the rest from the world after that part.
    ensures events { AppendsEvents }
    ensures world { AppendsWorld }
    // A step that makes no event changes nothing.
    ensures stays { StaysWithoutEvent }
    // A step takes and brings no actor.
    ensures actors { KeepsActors }
    // After every schedule each processor is still one of the platform.
    ensures platform { KeepsPlatform }
{}
