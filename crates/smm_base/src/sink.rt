ghost use Rattle.std.specs.Prelude.{◌≡◌, ◌⊎◌, ℕ, ◌<◌, ◌≤◌, Bool, Option, List, length, min, take, IfOk, IfSome, IsErrOf, IsTrue, OnErr, OnOk, ◌↔◌};
ghost use Rattle.smm_base.specs.Calls.{Leads};
ghost use Rattle.smm_base.specs.Faults.{Rose};
ghost use Rattle.smm_base.specs.Sink.{appended, GainsPrefix};
ghost use Rattle.smm_base.specs.declared.sink.WriteError.TheVariants.{NoMemory as no_memory_of_write};

use std::alloc::AllocError;
use std::convert::From;
use std::fmt;

/// Why nothing was written.
#[derive(Clone, Copy, Debug, PartialEq, Eq)]
pub enum WriteError {
    /// The outside failed.
    Failed,
    NoMemory,
}

/// Writes the cause: `failed` or `no memory`.
impl fmt::Display for WriteError {
    ghost use Rattle.std.specs.Prelude.{Some};
    ghost use Rattle.smm_base.specs.Errors.{write_error_text};

    ghost output = { λ error. Some (write_error_text error) };

    fn fmt<W: fmt::Write>(&self, f: &mut fmt::Formatter<W>) -> fmt::Result {
        f.write_str(match self {
            WriteError::Failed => "failed",
            WriteError::NoMemory => "no memory",
        })
    }
}

impl From<AllocError> for WriteError {
    ghost from_gives = { λ _ error. error ≡ no_memory_of_write };

    fn from(_: AllocError) -> Self {
        WriteError::NoMemory
    }
}

/// What takes bytes one after another. Each fault of the outside raises a count, which starts at 0,
/// never falls, and stands still at 18446744073709551615.
pub trait Sink {
    /// The bytes that were written, where the sink tells them.
    ghost written: { Self → Option (List ℕ) };

    /// How many writes have failed.
    ghost faults: { Self → ℕ };

    /// Whether the next write fails, where the sink tells it.
    ghost fails_next: { Self → Option Bool };

    /// How many bytes of a piece a write takes at most, where the sink tells it: then it takes as many.
    ghost most: { Self → Option ℕ };

    /// What one write makes of the sink.
    ghost moves: { Self → Self → Type 0 };

    /// Writes the first bytes of a piece, and answers how many. That can be fewer than the piece
    /// has; it is none of a piece that isn't empty only where the count of faults rose.
    ///
    /// # Errors
    ///
    /// `Failed` where the outside failed: then the count of faults rose. `NoMemory` for want of
    /// memory. On both nothing was written.
    fn write(&mut self, piece: &[u8]) -> Result<usize, WriteError>
        ensures within_piece { IfOk result (λ n. n ≤ length piece.now) }
        ensures appends { IfOk result (λ n. written self.new ≡ appended (written self.old) (take n piece.now)) }
        ensures takes_none { IfOk result (λ n. n ≡ 0 → 0 < length piece.now → Rose (faults self.old) (faults self.new)) }
        ensures failed { IsErrOf result WriteError.Failed → Rose (faults self.old) (faults self.new) }
        ensures refused { OnErr result (written self.new ≡ written self.old) }
        ensures stated { IfSome (fails_next self.old) (λ fails. IsErrOf result WriteError.Failed ↔ IsTrue fails) }
        ensures taken { IfOk result (λ n. IfSome (most self.old) (λ most. n ≡ min (length piece.now) most)) }
        ensures quiet { IfOk result (λ n. (0 < n) ⊎ (length piece.now ≡ 0) → faults self.new ≡ faults self.old) }
        ensures moved { moves self.old self.new };

    /// Along a write the count doesn't fall.
    ghost never_falls: { (before after : Self) → moves before after → faults before ≤ faults after };
}

/// Writes a whole piece, in as many writes as the sink needs.
///
/// # Errors
///
/// `Failed` where a write failed or took nothing: then the sink's count of faults rose. `NoMemory`
/// for want of memory. On both some front part of the piece was written, maybe none of it.
pub fn write_all<K: Sink>(out: &mut K, piece: &[u8]) -> Result<(), WriteError>
    ensures appends { OnOk result (K.written out.new ≡ appended (K.written out.old) piece.now) }
    ensures prefix { OnErr result (GainsPrefix (K.written out.old) (K.written out.new) piece.now) }
    ensures failed { IsErrOf result WriteError.Failed → Rose (K.faults out.old) (K.faults out.new) }
    ensures moved { Leads K.moves out.old out.new }
{
    let mut done = 0;
    while done < piece.len() {
        let taken = out.write(&piece[done..])?;
        if taken == 0 {
            return Err(WriteError::Failed);
        }
        done += taken;
    }
    Ok(())
}
