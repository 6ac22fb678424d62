// The rendezvous machine: which processor may say what, and when, whatever words and desks a protocol uses for it. It judges
// lists of actors and labels, whoever made them.
#![tactic(auto)]

mod laws;
mod phase;

pub use laws::run_laws;
pub use phase::Phase;
