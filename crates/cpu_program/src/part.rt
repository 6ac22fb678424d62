use arrival::{Entry, Gather, Report};
use exit_handshake::{Close, Exit};
use sync_words::Row;

/// What a processor is at.
#[derive(Drop)]
pub enum Part {
    /// A row between the parts.
    Between(Row),
    /// The entry of a visit.
    Entering(Entry),
    /// As the BSP, the gathering of the others.
    Gathering(Gather),
    /// As the BSP, the close of the session.
    Closing(Close),
    /// As the BSP, its handlers.
    Serving,
    /// As the BSP, the way out of the others.
    Exiting(Exit),
    /// As an AP, the wait for the BSP and the report.
    Reporting(Report),
    /// It does nothing more.
    Off,
}
