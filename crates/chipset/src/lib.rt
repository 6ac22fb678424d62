// The chipset as an actor of the protocol: it announces each wave of interrupts, sends it, and waits until it was served.
#![tactic(auto)]

mod arrivals;
mod chipset;

pub use chipset::Chipset;
