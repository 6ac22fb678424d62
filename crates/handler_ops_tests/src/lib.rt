// Tests of serving: whole sessions, each event typed by hand from the table of the operations.
#![tactic(auto)]

#[cfg(test)]
mod sessions;
mod turns;

pub use turns::{Others, turn};
