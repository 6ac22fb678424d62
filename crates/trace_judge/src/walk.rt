use crate::tally::Tally;
use trace_check::Machine;

/// How far a trace was judged: the checker, the byte at which the next line starts, and what was counted.
#[derive(Drop)]
pub struct Walk {
    pub machine: Machine,
    pub at: usize,
    pub tally: Tally,
}
