// What holds of every run of the rendezvous machine and of every relation that steps keep: the images by the labels, and the
// induction over a schedule. Nothing here does anything when it runs.
#![tactic(auto)]

mod resumed;

pub use resumed::resumed_images;
