ghost use Rattle.std.specs.Prelude.{◌≡◌};

use crate::path::{Path, TablePlace};
use cpu_table::{LayoutError, Text};
use smm_base::NoMemory;
use std::alloc::{AllocError, AllocFailed};

/// Why a document is no platform: the first fault of the walk.
#[derive(Drop)]
pub enum WalkFault {
    /// A key that must be there isn't.
    Missing(Path),
    /// A value of another kind.
    WrongType(Path),
    /// An entry of a list of tables that is no table.
    NoTable(TablePlace),
    /// A text that is none of the key's words.
    Word(Path),
    /// A number, or a list's length, outside its range; or what stands twice.
    Range(Path, i64),
    /// A key that the table doesn't have.
    Unknown(TablePlace, Text),
    /// So many events are more than a schedule may make.
    TooLarge(u64),
    /// SMRAM has no room for the processors' areas.
    Layout(LayoutError),
    NoMemory,
}

impl From<NoMemory> for WalkFault {
    ghost use Rattle.platform_document.specs.declared.fault.WalkFault.TheVariants.{NoMemory as no_memory};

    ghost from_gives = { λ _ e. e ≡ no_memory };

    fn from(_: NoMemory) -> Self {
        WalkFault::NoMemory
    }
}

impl From<AllocError> for WalkFault {
    ghost use Rattle.platform_document.specs.declared.fault.WalkFault.TheVariants.{NoMemory as no_memory};

    ghost from_gives = { λ _ e. e ≡ no_memory };

    fn from(_: AllocError) -> Self {
        WalkFault::NoMemory
    }
}

impl<T: Drop> From<AllocFailed<T>> for WalkFault {
    ghost use Rattle.platform_document.specs.declared.fault.WalkFault.TheVariants.{NoMemory as no_memory};

    ghost from_gives = { λ _ e. e ≡ no_memory };

    fn from(_: AllocFailed<T>) -> Self {
        WalkFault::NoMemory
    }
}
