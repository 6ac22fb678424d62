// Walks over the handlers of a list: whom each calls, and what it answers.
#![tactic(auto)]

mod laws;
mod manage;
mod running;

pub use laws::walk_laws;
pub use manage::Manage;

#[cfg(test)]
mod tests;
