ghost use Rattle.std.specs.Prelude.{◌≡◌, ◌⊎◌, ◌++◌, IfOk};
ghost use Rattle.platform_file.specs.Walk.{error_of};
ghost use Rattle.platform_file.specs.declared.error.PlatformError.TheVariants.{NoMemory as no_memory};

use cpu_table::{LayoutError, Text};
use platform_document::{WalkFault, name_under, path_text, place_text};
use smm_base::NoMemory;
use std::alloc::Global;
use std::fmt;

/// Why a file is no platform: its first fault, in the order of the keys, of a list's entries and of
/// the tables. A key is told by its path, as `wave[0].status` or `handler[2].ops[1].reg`.
#[derive(Debug, Drop)]
pub enum PlatformError {
    /// The bytes are no TOML document.
    NotToml,
    /// The key must be there, and isn't.
    Missing(Text),
    /// The value is of another kind, or the entry of a list of tables is no table.
    WrongType(Text),
    /// The text is none of the words that the key may have, or a name that is too short, too long
    /// or taken.
    Word(Text),
    /// The number, or the length of the list, is outside its range, or stands there twice.
    Range(Text, i64),
    /// The table has no such key.
    Unknown(Text),
    /// A schedule could make this many events, which is more than 4,194,304.
    TooLarge(u64),
    /// SMRAM has no room for the processors' areas.
    Layout(LayoutError),
    NoMemory,
}

/// The words that a fault line tells: `not-toml`, `missing KEY`, `type KEY`, `word KEY`, `range KEY NUMBER`,
/// `unknown KEY`, `too-large EVENTS`, those of the layout's error, or `no memory`.
impl fmt::Display for PlatformError {
    ghost use Rattle.std.specs.Prelude.{Some};
    ghost use Rattle.platform_file.specs.Texts.{platform_error_text};

    ghost output = { λ error. Some (platform_error_text error) };

    fn fmt<W: fmt::Write>(&self, f: &mut fmt::Formatter<W>) -> fmt::Result {
        match self {
            PlatformError::NotToml => f.write_str("not-toml"),
            PlatformError::Missing(key) => write!(f, "missing {}", key.as_str()),
            PlatformError::WrongType(key) => write!(f, "type {}", key.as_str()),
            PlatformError::Word(key) => write!(f, "word {}", key.as_str()),
            PlatformError::Range(key, number) => write!(f, "range {} {number}", key.as_str()),
            PlatformError::Unknown(key) => write!(f, "unknown {}", key.as_str()),
            PlatformError::TooLarge(events) => write!(f, "too-large {events}"),
            PlatformError::Layout(error) => write!(f, "{error}"),
            PlatformError::NoMemory => f.write_str("no memory"),
        }
    }
}

impl From<NoMemory> for PlatformError {
    ghost use Rattle.platform_file.specs.declared.error.PlatformError.TheVariants.{NoMemory as no_memory};

    ghost from_gives = { λ _ e. e ≡ no_memory };

    fn from(_: NoMemory) -> Self {
        PlatformError::NoMemory
    }
}

// The error of a fault, with its key as a path.
fn explain(alloc: Global, fault: WalkFault) -> Result<PlatformError, NoMemory>
    ensures { IfOk result (λ error. error ≡ error_of fault) }
{
    Ok(match fault {
        WalkFault::Missing(path) => PlatformError::Missing(path_text(alloc, path)?),
        WalkFault::WrongType(path) => PlatformError::WrongType(path_text(alloc, path)?),
        WalkFault::NoTable(place) => PlatformError::WrongType(Text::new(place_text(alloc, place)?)),
        WalkFault::Word(path) => PlatformError::Word(path_text(alloc, path)?),
        WalkFault::Range(path, number) => PlatformError::Range(path_text(alloc, path)?, number),
        WalkFault::Unknown(place, name) => {
            PlatformError::Unknown(name_under(alloc, place, name.as_str())?)
        }
        WalkFault::TooLarge(events) => PlatformError::TooLarge(events),
        WalkFault::Layout(error) => PlatformError::Layout(error),
        WalkFault::NoMemory => PlatformError::NoMemory,
    })
}

/// The error of a fault, or want of memory for its text.
pub fn error_of(alloc: Global, fault: WalkFault) -> PlatformError
    ensures { (result ≡ no_memory) ⊎ (result ≡ error_of fault) }
{
    match explain(alloc, fault) {
        Ok(error) => error,
        Err(_) => PlatformError::NoMemory,
    }
}
