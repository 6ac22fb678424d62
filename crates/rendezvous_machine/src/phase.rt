/// Where a processor is, as the rendezvous machine sees it. The phases are the project's own.
#[derive(Clone, Copy, Debug, PartialEq, Eq)]
pub enum Phase {
    /// Not in system management mode.
    Out,
    /// It has entered.
    In,
    /// It was counted in, and is a member of the session.
    Counted,
    /// It is a member, and has reported to the boot processor.
    Here,
    /// It has nothing more to do with the session.
    Gone,
    /// It takes no more interrupts.
    Off,
}
