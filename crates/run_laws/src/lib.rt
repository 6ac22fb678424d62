// What holds of every run of the rendezvous machine, told by its labels alone, for readers of reports. Nothing here does anything
// when it runs.
#![tactic(auto)]

mod labels;

pub use labels::label_laws;
