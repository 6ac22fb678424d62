ghost use Rattle.std.specs.Prelude.{◌≡◌};
ghost use Rattle.schedule_file.specs.declared.error.ScheduleError.TheVariants.{NoMemory};

use std::alloc::{AllocError, AllocFailed};
use std::fmt;

/// Why a text is no schedule of a platform. The first wrong item is told, before the number of actors is.
#[derive(Clone, Copy, Debug, PartialEq, Eq)]
pub enum ScheduleError {
    /// The item that starts at this byte, counted from 0, is not of an item's form.
    Token(usize),
    /// The item that starts at this byte names this actor, which the platform has not.
    Actor(usize, u32),
    /// Each item is right, and they stand for more than 4,194,304 actors.
    TooLong,
    /// No memory was left for the actors.
    NoMemory,
}

/// The words that a fault line tells: `token AT`, `actor AT NUMBER`, `too-long` or `no memory`.
impl fmt::Display for ScheduleError {
    ghost use Rattle.std.specs.Prelude.{Some};
    ghost use Rattle.schedule_file.specs.Texts.{schedule_error_text};

    ghost output = { λ error. Some (schedule_error_text error) };

    fn fmt<W: fmt::Write>(&self, f: &mut fmt::Formatter<W>) -> fmt::Result {
        match self {
            ScheduleError::Token(at) => write!(f, "token {at}"),
            ScheduleError::Actor(at, number) => write!(f, "actor {at} {number}"),
            ScheduleError::TooLong => f.write_str("too-long"),
            ScheduleError::NoMemory => f.write_str("no memory"),
        }
    }
}

impl From<AllocError> for ScheduleError {
    ghost from_gives = { λ _ e. e ≡ NoMemory };

    fn from(_: AllocError) -> ScheduleError {
        ScheduleError::NoMemory
    }
}

impl<T: Drop> From<AllocFailed<T>> for ScheduleError {
    ghost from_gives = { λ _ e. e ≡ NoMemory };

    fn from(_: AllocFailed<T>) -> ScheduleError {
        ScheduleError::NoMemory
    }
}
