// What the boot processor does between the beginning of serving and its end: walks over handlers, their operations,
// and procedures that other processors run. It knows no words and no threads.
#![tactic(auto)]

mod answering;
mod desk;
mod held;
mod laws;
mod need;
mod procedure;
mod reach;
mod row;
mod server;
mod telling;

pub use desk::{BoxedDesk, Desk, Job};
pub use held::{Desks, Held};
pub use laws::courses;
pub use need::Need;
pub use procedure::{read_number, run_job, write_number};
pub use server::Server;
