// The rendezvous of 1 to 64 processors: the shared words, what lies on them, a program for each actor, and the replay of
// a schedule.
#![tactic(auto)]

mod awake;
mod beginning;
mod error;
mod finishing;
mod laws;
mod lying;
mod lying_on_kind;
mod schedule;
mod starting;
mod stepped;
mod turn;
mod turned;
mod words;
mod words_of_kind;
mod world;

pub use error::{WorldError, not_relocated};
pub use laws::schedule_laws;
pub use schedule::replay;
pub use starting::{start_fault, start_registers};
pub use stepped::Stepped;
pub use world::World;
