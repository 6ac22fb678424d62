// A checker of lists of actors and labels: each label is judged as it comes, by the rules of the rendezvous machine.
#![tactic(auto)]

mod applying;
mod broken;
mod heading;
mod kept;
mod laws;
mod machine;
mod numbers;
mod ruling;
mod serving;
mod session;
mod starting;

pub use broken::Broken;
pub use laws::trace_laws;
pub use machine::Machine;
