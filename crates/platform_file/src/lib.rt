// The files that describe a platform: a TOML document is read as a platform's setup, or refused at its
// first fault. Each value of a key is read by `platform_document`; here stand the tables and the walk over them. Schedules are read by `schedule_file`, whose names stand here too.
#![tactic(auto)]

mod area;
mod causes;
mod error;
mod handlers;
mod head;
mod laws;
mod operations;
mod platform;
mod procedures;
mod waves;

pub use cpu_table::LayoutError;
pub use error::PlatformError;
pub use laws::distinct_laws;
pub use platform::read_platform;
pub use schedule_file::{ScheduleError, read_schedule};
