// The handlers that are registered, on the root list or on the list of a GUID.
#![tactic(auto)]

mod laws;
mod registration;
mod registry;

pub use laws::registry_laws;
pub use registration::Registration;
pub use registry::{Full, MOST_LIVE, Registry, Unknown};
