// What each actor does: a processor from its interrupt to its resume, or the chipset. A program tells the access that it
// wants, is told what the access found, and answers with the event.
#![tactic(auto)]

mod cargo;
mod going;
mod hands;
mod identity;
mod laws;
mod part;
mod processor;
mod program;
mod rows;
mod state;
mod taking;
mod visit;

pub use cargo::Cargo;
pub use laws::program_laws;
pub use part::Part;
pub use program::Program;
