// What a platform file says, by how its parts are written, and the laws that tie it to how the file is read.
#![tactic(auto)]

mod laws;

pub use laws::platform_laws;
