// Generated platforms: the text of one, and what many rounds of all actors on it come to.
#![tactic(auto)]

mod generated;

pub use generated::{platform_text, sum_line};
