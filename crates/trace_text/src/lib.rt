// Event lines as text, both ways.
#![tactic(auto)]

mod access;
mod field;
mod label;
mod last;
mod laws;
mod line;
mod place;
mod split;
mod write;

pub use last::{Totals, read_last};
pub use laws::text_laws;
pub use line::{TextError, read_event};
pub use write::{write_event, write_line};
