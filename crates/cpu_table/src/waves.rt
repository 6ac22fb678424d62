use crate::items::Items;
use smm_base::HandlerType;

/// How a wave's interrupt finds a processor. The words are the project's own.
#[derive(Clone, Copy, Debug, PartialEq, Eq)]
pub enum Arrival {
    /// It is pending at once.
    Prompt,
    /// It is pending only after a signal.
    Delayed,
    /// The processor cannot enter in this wave.
    Blocked,
    /// The processor is not there in this wave.
    Absent,
}

/// One interrupt that the chipset raises.
#[derive(Clone, Drop)]
pub struct Wave {
    /// How it finds each processor, by number.
    pub status: Items<Arrival>,
    /// What the boot processor walks over in the wave's session, in this order; at most 16.
    pub manage: Items<HandlerType>,
}
