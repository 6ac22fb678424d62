use std::fmt;

/// Why no processor is relocated.
#[derive(Clone, Copy, Debug, PartialEq, Eq)]
pub enum RelocError {
    /// Bit 17 of this processor's revision is 0: its SMBASE can't be relocated.
    NoRelocation(u16),
    /// This processor's SMBASE isn't 30000H.
    NotDefault(u16),
}

impl fmt::Display for RelocError {
    ghost use Rattle.std.specs.Prelude.{Some};
    ghost use Rattle.smbase_reloc.specs.Words.{refusal_text};

    ghost output = { λ error. Some (refusal_text error) };

    fn fmt<W: fmt::Write>(&self, f: &mut fmt::Formatter<W>) -> fmt::Result {
        match self {
            RelocError::NoRelocation(i) => write!(f, "no-relocation {i}"),
            RelocError::NotDefault(i) => write!(f, "not-default {i}"),
        }
    }
}
