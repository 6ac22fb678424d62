use sync_words::Label;

/// What is made of the number that an access finds.
#[derive(Clone, Copy)]
pub enum Row {
    /// Serving is over, or no need is unanswered.
    Finished,
    /// A look, and this label.
    Looking(Label),
    /// The desk of a processor where it is present, else this label.
    ClaimingDesk(u16, Label),
    /// The job of a processor where it was run, else this label.
    ClaimingJob(u16, Label),
    /// The job of a processor once it was run.
    AwaitingJob(u16),
    /// The processor's word is put.
    Putting(u16),
    /// The processor gets its desk with the job of this label.
    Raising(u16, Label),
    /// A look, and a read of the image at hand.
    Reading {
        cpu: u16,
        reg: u32,
        width: u8,
    },
    /// A look, and a write to the image at hand.
    Writing {
        cpu: u16,
        reg: u32,
        width: u8,
        value: u64,
    },
    /// A look, and a request of so many bytes.
    Allocating(u64),
    /// A look, and the block at an address is given back.
    Freeing(u64),
}
