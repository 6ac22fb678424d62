/// Where an actor that isn't off stands in the protocol: each row wants one access. The rows are the project's own, after
/// the rendezvous of EDK II's PiSmmCpuDxeSmm in outline. A number is a processor, the looks made so far in a round of
/// looks, or how often a semaphore is still to be waited on.
#[derive(Clone, Copy, PartialEq, Eq)]
pub enum Row {
    // Outside of a visit.
    /// Waits for an interrupt.
    AwaitSmi,
    /// Turns its own signal off after its last visit.
    SwitchOff,
    // The entry of a visit.
    /// Looks whether a wave waits to be served.
    LookAtSource,
    /// Looks whether a BSP is at work.
    LookAtInside,
    /// Counts itself in.
    CountIn,
    /// Takes the chair of the BSP, where nobody has it.
    ClaimBsp,
    /// Looks whether the platform fixes it as the BSP.
    LookAtBsp,
    // The BSP begins a session.
    /// Says that it is at work.
    MarkInside,
    /// Takes the wave.
    TakeSource,
    // The BSP gathers the others.
    /// Reads how many processors the wave announced as blocked.
    LookAtExcept,
    /// Looks for all to have come, first round.
    GatherFirst(u32),
    /// Looks whether this processor has reported.
    FindMissing(u16),
    /// Sends an interrupt to this processor, which has not reported.
    SignalMissing(u16),
    /// Looks for all to have come, second round.
    GatherSecond(u32),
    // The BSP closes the session.
    /// Says that the session is about to be closed.
    MarkInsync,
    /// Closes the session.
    LockCounter,
    /// Waits for the reports of the counted APs, so many more.
    AwaitReports(u32),
    /// Takes the desk of this processor, where it has reported.
    TakeDesk(u16),
    // The BSP serves.
    /// Serves the interrupt: its handlers and their operations.
    Serve,
    /// Waits for the job of this processor to be finished, and takes its desk back.
    CollectJob(u16),
    /// Says that the handlers are done.
    LeaveInside,
    // The BSP lets the others go.
    /// Gives this processor its desk back.
    Release(u16),
    /// Waits for the released APs to answer, so many more.
    AwaitReleased(u32),
    /// Lets this processor leave.
    Dismiss(u16),
    /// Waits for the dismissed APs to have left, so many more.
    AwaitDismissed(u32),
    /// Gives the chair of the BSP back.
    GiveBsp,
    /// Says that the session has ended.
    LeaveInsync,
    /// Opens the counter for the next session.
    UnlockCounter,
    // An AP arrives and reports.
    /// Looks for a BSP at work, first round.
    AwaitInside(u32),
    /// Looks who the BSP is.
    FindBsp,
    /// Sends an interrupt to the BSP.
    SignalBsp,
    /// Looks for a BSP at work, second round.
    AwaitInsideAgain(u32),
    /// Takes itself from the counter, where that isn't locked.
    CountOut,
    /// Waits until the BSP is known.
    SeekBsp,
    /// Reports, and gives its desk.
    Report,
    /// Tells the BSP that it has reported.
    TellReported,
    // An AP works and leaves.
    /// Waits for a job or for its release.
    AwaitRelease,
    /// Runs its job, and gives its desk back.
    GiveDeskBack,
    /// Tells the BSP that it was released.
    TellReleased,
    /// Waits until it may leave.
    AwaitDismissal,
    /// Withdraws its report.
    WithdrawReport,
    /// Tells the BSP that it has left.
    TellDismissed,
    // The way out of every processor.
    /// Waits for the session to end.
    AwaitSessionEnd,
    /// Clears its mark, and resumes.
    ClearSignal,
    // The chipset's rows.
    /// Announces how many processors the wave blocks.
    AnnounceBlocked,
    /// Announces the wave.
    AnnounceWave,
    /// Raises the wave's signal of this processor.
    RaiseWave(u16),
    /// Looks for the wave to be taken.
    WatchSource(u32),
    /// Waits for the handlers to be done.
    AwaitServed,
    /// Turns the signal of this processor off.
    RaiseOff(u16),
}
