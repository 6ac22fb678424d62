// The law that ties replays to the judge of traces: the report of every replay is accepted. It does nothing when it runs.
#![tactic(auto)]

mod laws;

pub use laws::every_report;
