// What the word `pend` of a processor holds: its signal, and a mark while it is inside. Both are the project's own.

/// There is no signal.
pub const NO_SIGNAL: u32 = 0;

/// The processor takes the interrupt at its next turn.
pub const DELIVERABLE: u32 = 1;

/// It is held until another processor sends an interrupt (IPI).
pub const HELD: u32 = 2;

/// It is blocked: a signal of another processor does not deliver it.
pub const BLOCKED: u32 = 3;

/// The processor takes no interrupt any more.
pub const OFF: u32 = 4;

/// What is added to the signal while the processor is inside.
pub const INSIDE: u32 = 8;
