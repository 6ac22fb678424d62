// The replay of a schedule, and the report that is written of it.
#![tactic(auto)]

mod inputs;
mod replay;
mod report;

pub use inputs::Inputs;
pub use replay::{Replay, replay_of};
pub use report::{push_totals, write_report};
