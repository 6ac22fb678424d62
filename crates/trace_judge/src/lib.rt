// A judge of whole traces: the bytes of a trace, line by line, against the rendezvous machine of a platform. It keeps no list of
// events.
#![tactic(auto)]

mod fault;
mod judging;
mod laws;
mod tally;
mod walk;

pub use fault::{LineFault, TraceFault};
pub use judging::judge;
pub use laws::judge_laws;
