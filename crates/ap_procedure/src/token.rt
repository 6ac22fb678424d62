use smm_base::Status;

/// What a token tells of its job.
#[derive(Clone, Copy)]
pub enum TokenState {
    /// The job was not collected yet; its processor.
    Open(u16),
    /// The job was collected, with this result and status.
    Finished { result: u64, status: Status },
}

/// A token that is out.
#[derive(Clone, Copy)]
pub struct Token {
    pub job: u32,
    pub state: TokenState,
}
