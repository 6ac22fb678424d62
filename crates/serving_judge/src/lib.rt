// A judge of serving lists, which is told a list label by label, and stores none.
#![tactic(auto)]

mod due;
mod fits;
mod judge;
mod next;
mod takes;
mod words;

pub use judge::Judge;
pub use next::StartDue;
pub use words::is_status;
