ghost use Rattle.std.specs.Prelude.{◌≡◌, Some};
ghost use Rattle.image_file.specs.declared.error.ImagesError.TheVariants.{NoMemory};
ghost use Rattle.image_file.specs.Texts.{images_error_text};

use std::alloc::{AllocError, AllocFailed};
use std::fmt;

/// Why bytes are no image file: the first check that fails, in the order of the header, and then of the length.
#[derive(Clone, Copy, Debug, PartialEq, Eq)]
pub enum ImagesError {
    /// The file has this many bytes, which are fewer than the header's 12, or fewer than its images take.
    Short(usize),
    /// It doesn't begin with `SMIM`.
    Magic,
    /// Its version isn't 1.
    Version(u16),
    /// Its kind is neither 0, the 32-bit map, nor 1, the Intel 64 map.
    Kind(u16),
    /// It says that it holds no image, or more than 64.
    Count(u32),
    /// The file has this many bytes, which are more than its images take.
    Long(usize),
    /// No memory was left for the images.
    NoMemory,
}

/// Writes the words that stand after `fault images `, and `no memory` for want of memory.
impl fmt::Display for ImagesError {
    ghost output = { λ error. Some (images_error_text error) };

    fn fmt<W: fmt::Write>(&self, f: &mut fmt::Formatter<W>) -> fmt::Result {
        match self {
            ImagesError::Short(length) => write!(f, "short {length}"),
            ImagesError::Magic => f.write_str("magic"),
            ImagesError::Version(version) => write!(f, "version {version}"),
            ImagesError::Kind(kind) => write!(f, "kind {kind}"),
            ImagesError::Count(count) => write!(f, "count {count}"),
            ImagesError::Long(length) => write!(f, "long {length}"),
            ImagesError::NoMemory => f.write_str("no memory"),
        }
    }
}

impl From<AllocError> for ImagesError {
    ghost from_gives = { λ _ e. e ≡ NoMemory };

    fn from(_: AllocError) -> ImagesError {
        ImagesError::NoMemory
    }
}

impl<T: Drop> From<AllocFailed<T>> for ImagesError {
    ghost from_gives = { λ _ e. e ≡ NoMemory };

    fn from(_: AllocFailed<T>) -> ImagesError {
        ImagesError::NoMemory
    }
}
