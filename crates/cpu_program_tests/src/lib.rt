// Tests of an actor's program: whole runs, each event typed by hand from the table of the rows.
#![tactic(auto)]

#[cfg(test)]
mod programs;
mod starts;
mod turns;

pub use starts::Actor;
pub use turns::{Others, turn};
