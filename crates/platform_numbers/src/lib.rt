// The law that the numbers of each platform that a file stands for fit their types. It does nothing when it runs.
#![tactic(auto)]

mod laws;

pub use laws::file_numbers;
