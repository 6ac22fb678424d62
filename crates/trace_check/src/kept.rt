use crate::session::Session;
use serving_judge::Judge;
use trace_members::Member;

/// What is kept of a machine.
#[derive(Drop)]
pub struct Kept {
    /// The processors by number.
    pub members: Vec<Member>,
    /// How many waves were announced.
    pub waves: u32,
    /// How many announcements of blocked processors there were.
    pub excepted: u64,
    /// The number that the last of them named.
    pub last_excepted: u32,
    /// The wave that raised the interrupt, or 0.
    pub source: u32,
    pub session: Option<Session>,
    /// What the boot processor has said while serving.
    pub judge: Judge,
}
