ghost use Rattle.std.specs.Prelude.{Some};
ghost use Rattle.rendezvous_core.specs.Starts.{IsRefusedBy};

use smbase_reloc::RelocError;
use std::fmt;

/// Why there is no world.
#[derive(Clone, Copy, Debug, PartialEq, Eq)]
pub enum WorldError {
    /// Bit 17 of this processor's revision is 0: its SMBASE can't be relocated.
    NoRelocation(u16),
    /// This processor's SMBASE isn't 30000H.
    NotDefault(u16),
    /// The allocator has no memory for the replay.
    NoMemory,
}

/// The refusal of a relocation.
pub fn not_relocated(error: RelocError) -> WorldError
    ensures { IsRefusedBy (Some error) result }
{
    match error {
        RelocError::NoRelocation(i) => WorldError::NoRelocation(i),
        RelocError::NotDefault(i) => WorldError::NotDefault(i),
    }
}

impl fmt::Display for WorldError {
    ghost use Rattle.std.specs.Prelude.{Some};
    ghost use Rattle.rendezvous_core.specs.Texts.{refusal_text};

    ghost output = { λ error. Some (refusal_text error) };

    fn fmt<W: fmt::Write>(&self, f: &mut fmt::Formatter<W>) -> fmt::Result {
        match self {
            WorldError::NoRelocation(i) => write!(f, "no-relocation {i}"),
            WorldError::NotDefault(i) => write!(f, "not-default {i}"),
            WorldError::NoMemory => f.write_str("no memory"),
        }
    }
}
