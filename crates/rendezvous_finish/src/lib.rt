// Every schedule can be finished: nothing is stuck where it leads, so that rounds of all actors come to an end.
#![tactic(auto)]

mod laws;
mod to_end;

pub use laws::finish_laws;
pub use to_end::replay_to_end;
