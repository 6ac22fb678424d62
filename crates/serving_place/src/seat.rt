use smm_base::Status;

/// A processor's uncollected job. The first number is the job's; the `bool` says whether it was given with a token.
#[derive(Clone, Copy)]
pub enum Seat {
    /// There is none.
    Free,
    /// It is still to be run.
    Open(u32, bool),
    /// It was run, with this result and status.
    Done(u32, bool, u64, Status),
}
