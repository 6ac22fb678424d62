ghost use Rattle.std.specs.Prelude.{Some, codes};

use std::alloc::{AllocError, AllocFailed};
use std::convert::From;
use std::fmt;

/// The allocator had no memory left. Nothing else is told of such a refusal.
#[derive(Clone, Copy, Debug, PartialEq, Eq)]
pub struct NoMemory;

/// Writes `no memory`.
impl fmt::Display for NoMemory {
    ghost output = { λ _. Some (codes "no memory") };

    fn fmt<W: fmt::Write>(&self, f: &mut fmt::Formatter<W>) -> fmt::Result {
        f.write_str("no memory")
    }
}

impl From<AllocError> for NoMemory {
    fn from(_: AllocError) -> Self {
        NoMemory
    }
}

impl<T: Drop> From<AllocFailed<T>> for NoMemory {
    fn from(_: AllocFailed<T>) -> Self {
        NoMemory
    }
}
