ghost use Rattle.std.specs.Prelude.{◌≡◌, ◌≤◌, IsTrue, Some};
ghost use Rattle.std.specs.Fmt.{WritesOnOk};
ghost use Rattle.sync_words.specs.Access.{applied, IsWithin, LeavesWord};
ghost use Rattle.sync_words.specs.Groups.{has_numbers};
ghost use Rattle.sync_words.specs.Steps.{found_of};
ghost use Rattle.sync_words.specs.Texts.{access_text};

use crate::signal::{DELIVERABLE, HELD, INSIDE, NO_SIGNAL, OFF};
use std::fmt;

/// The greatest number that a word holds. In the counter it says that the session is closed, and
/// in the word of the boot processor that there is none.
pub const LOCKED: u32 = 16_777_215;

/// What an actor does to a word. The numbers are at most [`LOCKED`], that of `Raise` is a signal. The accesses
/// are the project's own; those of a semaphore with its locked value follow EDK II (PiSmmCpuDxeSmm,
/// `WaitForSemaphore`, `ReleaseSemaphore`, `LockdownSemaphore`).
#[derive(Clone, Copy, Debug, PartialEq, Eq)]
pub enum Access {
    /// Reads the word.
    Look,
    /// Writes a number.
    Put(u32),
    /// Adds one to a counter or a semaphore that isn't locked.
    Up,
    /// Takes one from a semaphore, and waits while it is 0.
    Down,
    /// Takes one from a counter that isn't locked or 0.
    Lower,
    /// Locks a counter.
    Lock,
    /// Writes the second number where the word has the first.
    Claim(u32, u32),
    /// Waits until the word has the first number, and then writes the second.
    Await(u32, u32),
    /// Waits until the word is below a number.
    Seek(u32),
    /// Makes an interrupt signal deliverable where there is none, or one that is held.
    Signal,
    /// Takes a deliverable signal and marks the processor as inside, or sees that it is off.
    TakeSmi,
    /// Takes the mark of a processor that is inside.
    ClearSmi,
    /// Replaces an interrupt signal, and waits while a deliverable one stands. Off stays off.
    Raise(u32),
}

/// Writes the access's word, and its numbers with a colon before each.
impl fmt::Display for Access {
    ghost output = { λ access. Some (access_text access) };

    fn fmt<W: fmt::Write>(&self, f: &mut fmt::Formatter<W>) -> fmt::Result {
        match self {
            Access::Look => f.write_str("look"),
            Access::Up => f.write_str("up"),
            Access::Down => f.write_str("down"),
            Access::Lower => f.write_str("lower"),
            Access::Lock => f.write_str("lock"),
            Access::Signal => f.write_str("signal"),
            Access::TakeSmi => f.write_str("take"),
            Access::ClearSmi => f.write_str("clear"),
            _ => self.write_numbers(f),
        }
    }
}

impl Access {
    // Writes an access that has numbers.
    fn write_numbers<W: fmt::Write>(&self, f: &mut fmt::Formatter<W>) -> fmt::Result
        requires { IsTrue (has_numbers self.now) }
        ensures { WritesOnOk W.write_str_gives f.old result (access_text self.now) f.new }
    {
        match self {
            Access::Put(new) => write!(f, "put:{new}"),
            Access::Claim(from, new) => write!(f, "claim:{from}:{new}"),
            Access::Await(from, new) => write!(f, "await:{from}:{new}"),
            Access::Seek(below) => write!(f, "seek:{below}"),
            Access::Raise(signal) => write!(f, "raise:{signal}"),
            _ => unreachable!(),
        }
    }
}

/// What an access does to the number that it finds.
#[derive(Clone, Copy, PartialEq, Eq)]
pub enum Applied {
    /// The word has a new number.
    Changed { new: u32, found: u32 },
    /// It was accepted, and the word stays.
    Same { found: u32 },
    /// The actor has to wait, and the word stays.
    NotReady { found: u32 },
}

impl Applied {
    /// The number that the access found.
    pub fn found(self) -> u32
        ensures { result ≡ found_of self }
    {
        match self {
            Applied::Changed { found, .. }
            | Applied::Same { found }
            | Applied::NotReady { found } => { found }
        }
    }
}

/// What `access` does to a word with this value. Constant time, no memory.
pub fn apply(value: u32, access: Access) -> Applied
    requires value_fits { value ≤ LOCKED }
    requires access_fits { IsWithin access }
    ensures meaning { result ≡ applied value access }
    ensures fits { LeavesWord result }
    ensures found { found_of result ≡ value }
{
    let found = value;
    let signal = value % INSIDE;
    match access {
        Access::Look => Applied::Same { found },
        Access::Put(new) => Applied::Changed { new, found },
        Access::Up if value == LOCKED => Applied::Same { found },
        Access::Up => Applied::Changed {
            new: value + 1,
            found,
        },
        Access::Down if value == 0 => Applied::NotReady { found },
        Access::Lower if value == LOCKED || value == 0 => Applied::Same { found },
        Access::Down | Access::Lower => Applied::Changed {
            new: value - 1,
            found,
        },
        Access::Lock => Applied::Changed { new: LOCKED, found },
        Access::Claim(from, new) if value == from => Applied::Changed { new, found },
        Access::Claim(_, _) => Applied::Same { found },
        Access::Await(from, _) if value != from => Applied::NotReady { found },
        Access::Await(from, new) if from == new => Applied::Same { found },
        Access::Await(_, new) => Applied::Changed { new, found },
        Access::Seek(below) if value < below => Applied::Same { found },
        Access::Seek(_) => Applied::NotReady { found },
        Access::Signal if signal != NO_SIGNAL && signal != HELD => Applied::Same { found },
        Access::Signal => Applied::Changed {
            new: value - signal + DELIVERABLE,
            found,
        },
        Access::TakeSmi if value == OFF => Applied::Same { found },
        Access::TakeSmi if value == DELIVERABLE => Applied::Changed { new: INSIDE, found },
        Access::TakeSmi => Applied::NotReady { found },
        Access::ClearSmi if value < INSIDE => Applied::Same { found },
        Access::ClearSmi => Applied::Changed {
            new: value - INSIDE,
            found,
        },
        Access::Raise(_) if signal == OFF => Applied::Same { found },
        Access::Raise(_) if signal == DELIVERABLE => Applied::NotReady { found },
        Access::Raise(to) => Applied::Changed {
            new: value - signal + to,
            found,
        },
    }
}
