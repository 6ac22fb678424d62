// The words of a command line: the commands, what their words stand for, and the numbers among them.
#![tactic(auto)]

mod command;
mod recipe;

pub use command::{Check, Command, Step, command_of};
pub use recipe::Recipe;
