ghost use Rattle.std.specs.Prelude.{◌≡◌, ◌≤◌, ◌+◌};
ghost use Rattle.cpu_table.specs.Layout.{is_tile, areas_end, layout_refusal};

use crate::setup::Smram;
use std::fmt;

/// Where the default area ends, 40000H: the area of an SMBASE of 30000H (Intel SDM, Volume 3).
const DEFAULT_AREA_END: u64 = 262144;

/// The bytes of a save state, at the end of its area (Intel SDM, Volume 3).
const SAVE_STATE_SIZE: u64 = 1024;

/// The bytes from the start of the last processor's entry code to the end of its area, 8000H.
const LAST_AREA: u64 = 32768;

/// Why the processors' areas find no room in SMRAM. Each number is in bytes.
#[derive(Clone, Copy, Debug, PartialEq, Eq)]
pub enum LayoutError {
    /// The distance of two areas isn't 2,048, 4,096, 8,192, 16,384 or 32,768; it.
    BadTile(u64),
    /// The entry code reaches into the tile's last 1,024 bytes; its size.
    CodeTooLong(u64),
    /// SMRAM starts below 40000H, where the default area ends; its start.
    Low(u64),
    /// The areas end after the end of SMRAM; where they end.
    PastEnd(u64),
}

/// The cause, and after it the number: `bad-tile T`, `code-too-long C`, `low B` or `past-end E`.
impl fmt::Display for LayoutError {
    ghost use Rattle.std.specs.Prelude.{Some};
    ghost use Rattle.cpu_table.specs.Texts.{layout_error_text};

    ghost output = { λ error. Some (layout_error_text error) };

    fn fmt<W: fmt::Write>(&self, f: &mut fmt::Formatter<W>) -> fmt::Result {
        match self {
            LayoutError::BadTile(tile) => write!(f, "bad-tile {tile}"),
            LayoutError::CodeTooLong(code) => write!(f, "code-too-long {code}"),
            LayoutError::Low(base) => write!(f, "low {base}"),
            LayoutError::PastEnd(end) => write!(f, "past-end {end}"),
        }
    }
}

// May two processors' areas be this far apart?
fn is_tile(tile: u64) -> bool
    ensures { result ≡ is_tile tile }
{
    matches!(tile, 2048 | 4096 | 8192 | 16384 | 32768)
}

// Where the areas of `n` processors end.
fn areas_end(area: &Smram, n: u16) -> u64
    requires some { 1 ≤ n }
    requires within { area.now.base ≤ 4294967296 }
    requires tile { area.now.tile ≤ 32768 }
    ensures { result ≡ areas_end area.now n }
{
    area.base + u64::from(n - 1) * area.tile + LAST_AREA
}

/// Why SMRAM has no room for the areas of `n` processors, by the first cause that holds. None where it has.
pub fn layout_fault(area: &Smram, n: u16) -> Option<LayoutError>
    requires some { 1 ≤ n }
    requires within { area.now.base + area.now.size ≤ 4294967296 }
    ensures { result ≡ layout_refusal area.now n }
{
    if !is_tile(area.tile) {
        return Some(LayoutError::BadTile(area.tile));
    }
    if area.code > area.tile - SAVE_STATE_SIZE {
        return Some(LayoutError::CodeTooLong(area.code));
    }
    if area.base < DEFAULT_AREA_END {
        return Some(LayoutError::Low(area.base));
    }
    let end = areas_end(area, n);
    if end > area.base + area.size {
        return Some(LayoutError::PastEnd(end));
    }
    None
}
