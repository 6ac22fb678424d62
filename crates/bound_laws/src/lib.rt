// The bound of every schedule: how many events each actor makes at most, and all together. It does nothing when it runs.
#![tactic(auto)]

mod bounded;

pub use bounded::every_schedule_is_bounded;
