ghost use Rattle.std.specs.Prelude.{◌≡◌, ℕ, ◌<◌, ◌≤◌, Bool, Option, None, length, vec_len, IfOk, IfSome, IsErrOf, IsSomeAnd, IsTrue, MatchOption, OnOk, ◌↔◌};
ghost use Rattle.smm_base.specs.Faults.{Rose};
ghost use Rattle.smm_base.specs.Store.{ChangesOnly, FileMap, RefusesWith};
ghost use Rattle.smm_base.specs.declared.store.LoadError.TheVariants.{NoMemory as no_memory_of_load};
ghost use Rattle.smm_base.specs.declared.store.SaveError.TheVariants.{NoMemory as no_memory_of_save};

use crate::NoMemory;
use std::alloc::{AllocError, AllocFailed, Global};
use std::convert::From;
use std::fmt;

/// Why a file was not loaded.
#[derive(Clone, Copy, Debug, PartialEq, Eq)]
pub enum LoadError {
    /// The outside failed.
    Failed,
    /// The store hasn't the name.
    Missing,
    /// The file has more bytes than the limit.
    TooLong,
    NoMemory,
}

/// Why a file was not saved.
#[derive(Clone, Copy, Debug, PartialEq, Eq)]
pub enum SaveError {
    /// The outside failed.
    Failed,
    NoMemory,
}

/// Writes the cause: `failed`, `missing`, `too-long` or `no memory`.
impl fmt::Display for LoadError {
    ghost use Rattle.std.specs.Prelude.{Some};
    ghost use Rattle.smm_base.specs.Errors.{load_error_text};

    ghost output = { λ error. Some (load_error_text error) };

    fn fmt<W: fmt::Write>(&self, f: &mut fmt::Formatter<W>) -> fmt::Result {
        f.write_str(match self {
            LoadError::Failed => "failed",
            LoadError::Missing => "missing",
            LoadError::TooLong => "too-long",
            LoadError::NoMemory => "no memory",
        })
    }
}

impl From<AllocError> for LoadError {
    ghost from_gives = { λ _ error. error ≡ no_memory_of_load };

    fn from(_: AllocError) -> Self {
        LoadError::NoMemory
    }
}

/// Writes the cause: `failed` or `no memory`.
impl fmt::Display for SaveError {
    ghost use Rattle.std.specs.Prelude.{Some};
    ghost use Rattle.smm_base.specs.Errors.{save_error_text};

    ghost output = { λ error. Some (save_error_text error) };

    fn fmt<W: fmt::Write>(&self, f: &mut fmt::Formatter<W>) -> fmt::Result {
        f.write_str(match self {
            SaveError::Failed => "failed",
            SaveError::NoMemory => "no memory",
        })
    }
}

impl From<NoMemory> for SaveError {
    ghost from_gives = { λ _ error. error ≡ no_memory_of_save };

    fn from(_: NoMemory) -> Self {
        SaveError::NoMemory
    }
}

/// Files by their names, as a program loads and saves them. Each fault of the outside raises one of
/// two counts, which start at 0, never fall, and stand still at 18446744073709551615.
pub trait Store {
    /// What each name holds, where the store tells it.
    ghost files: { Self → Option FileMap };

    /// How many loads have failed.
    ghost failed_loads: { Self → ℕ };

    /// How many saves have failed.
    ghost failed_saves: { Self → ℕ };

    /// Whether the next call fails, where the store tells it.
    ghost fails_next: { Self → Option Bool };

    /// What one call, a load or a save, makes of the store.
    ghost moves: { Self → Self → Type 0 };

    /// The content of a file, of at most `limit` bytes. The files stay as they were.
    ///
    /// # Errors
    ///
    /// `Missing` where the store hasn't the name, `TooLong` where the file has more than `limit`
    /// bytes, `Failed` where the outside failed, `NoMemory` for want of memory. A store that does
    /// not tell its files answers the first three only where its count of failed loads rose.
    fn load(&mut self, alloc: Global, name: &str, limit: u64) -> Result<Vec<u8>, LoadError>
        ensures within_limit { IfOk result (λ bytes. vec_len bytes ≤ limit) }
        ensures content { IfOk result (λ bytes.
            IfSome (files self.old) (λ held. held name.now ≡ Option.Some bytes.items)) }
        ensures failed { IsErrOf result LoadError.Failed → Rose (failed_loads self.old) (failed_loads self.new) }
        ensures missing { IsErrOf result LoadError.Missing → MatchOption (files self.old)
            (Rose (failed_loads self.old) (failed_loads self.new))
            (λ held. held name.now ≡ None) }
        ensures too_long { IsErrOf result LoadError.TooLong → MatchOption (files self.old)
            (Rose (failed_loads self.old) (failed_loads self.new))
            (λ held. IsSomeAnd (held name.now) (λ bytes. limit < length bytes)) }
        ensures not_held { IfSome (files self.old) (λ held.
            held name.now ≡ None → RefusesWith LoadError.Missing result) }
        ensures longer { IfSome (files self.old) (λ held. IfSome (held name.now) (λ bytes.
            limit < length bytes → RefusesWith LoadError.TooLong result)) }
        ensures stated { IfSome (fails_next self.old) (λ fails. IsErrOf result LoadError.Failed ↔ IsTrue fails) }
        ensures quiet { OnOk result (failed_loads self.new ≡ failed_loads self.old) }
        ensures files_stay { files self.new ≡ files self.old }
        ensures moved { moves self.old self.new };

    /// Puts a content under a name, in the place of what it held. Other names stay as they were.
    ///
    /// # Errors
    ///
    /// `Failed` where the outside failed: then the count of failed saves rose, and what the name
    /// holds isn't known. `NoMemory` for want of memory: then all files stay as they were.
    fn save(&mut self, name: &str, bytes: &[u8]) -> Result<(), SaveError>
        ensures saved { OnOk result (IfSome (files self.new) (λ held. held name.now ≡ Option.Some bytes.now)) }
        ensures others_stay { ChangesOnly name.now (files self.old) (files self.new) }
        ensures failed { IsErrOf result SaveError.Failed → Rose (failed_saves self.old) (failed_saves self.new) }
        ensures no_memory { IsErrOf result SaveError.NoMemory → files self.new ≡ files self.old }
        ensures stated { IfSome (fails_next self.old) (λ fails. IsErrOf result SaveError.Failed ↔ IsTrue fails) }
        ensures quiet { OnOk result (failed_saves self.new ≡ failed_saves self.old) }
        ensures moved { moves self.old self.new };

    /// Along a call no count falls.
    ghost loads_never_fall: { (before after : Self) → moves before after → failed_loads before ≤ failed_loads after };

    ghost saves_never_fall: { (before after : Self) → moves before after → failed_saves before ≤ failed_saves after };
}
