/// What the boot processor has to do next while it serves: an access to a word of a processor, by the processor's number.
#[derive(Clone, Copy, Debug, PartialEq, Eq)]
pub enum Need {
    /// A look at the word that says that a session is open: it changes nothing.
    Look,
    /// Claims the word that says whether a processor is present; where it was 1 the desk comes with it.
    ClaimPresent(u16),
    /// Claims the word of a processor's job; where the job was run the desk comes with it.
    ClaimBusy(u16),
    /// The same, but waits until the job was run.
    AwaitBusy(u16),
    /// Marks that a processor has a job.
    PutBusy(u16),
    /// Wakes a processor, and gives it its desk with the job.
    RaiseRun(u16),
    /// Serving is over.
    Finished,
}
