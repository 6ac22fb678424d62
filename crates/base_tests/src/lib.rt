// Tests of the crates that all others stand on: stores and sinks, the field tables of both maps, the register service, and how
// words, accesses, labels and events are printed.
#![tactic(auto)]

#[cfg(test)]
mod fields;
#[cfg(test)]
mod labels;
#[cfg(test)]
mod lines;
#[cfg(test)]
mod outside;
#[cfg(test)]
mod service;
