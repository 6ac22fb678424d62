// A platform drawn from a seed, as a setup and as the platform file that tells it.
#![tactic(auto)]

mod draws;
mod plan;
mod platform;
mod setup;
mod text;

pub use platform::{generate, generated_text};
