// The procedures that the boot processor has other processors run: jobs, and tokens to ask for them.
#![tactic(auto)]

mod jobs;
mod laws;
mod token;
mod tokens;

pub use jobs::{Jobs, Refused};
pub use laws::job_laws;
pub use token::{Token, TokenState};
pub use tokens::MOST_TOKENS;

#[cfg(test)]
mod tests;
