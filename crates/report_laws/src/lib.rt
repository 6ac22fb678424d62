// The law of reports: each event of every replay has a spelling, so that a report's lines are read back. It does nothing when
// it runs.
#![tactic(auto)]

mod laws;

pub use laws::report_laws;
