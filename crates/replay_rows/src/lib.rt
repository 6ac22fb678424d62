// Replays of a few schedules that are worked out by hand, as the definitions compute them. It does nothing when it runs.
#![tactic(auto)]

mod worked;

pub use worked::worked_replays;
