// Schedules: a text is read as the actors that it names in turn, or refused at its first wrong item.
#![tactic(auto)]

mod actors;
mod error;
mod item;
mod laws;
mod schedule;

pub use error::ScheduleError;
pub use laws::schedule_laws;
pub use schedule::read_schedule;
