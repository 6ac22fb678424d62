use smm_base::Status;

/// What a walk keeps of the statuses that its handlers returned.
#[derive(Clone, Copy)]
pub struct Running {
    /// The last one, or NOT_FOUND before the first.
    pub last: Status,
    /// One made the answer SUCCESS, unless a later one stops the walk.
    pub settled: bool,
}
