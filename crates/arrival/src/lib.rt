// How a processor arrives: its entry, the BSP's gathering of the others, and the report of an AP.
#![tactic(auto)]

mod entry;
mod gather;
mod laws;
mod report;
mod rows;

pub use entry::Entry;
pub use gather::Gather;
pub use laws::{entry_laws, gather_laws, report_laws};
pub use report::Report;
