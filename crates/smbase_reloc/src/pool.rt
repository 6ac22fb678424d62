ghost use Rattle.std.specs.Prelude.{◌≡◌, ◌+◌, ◌*◌, ◌%◌, ◌^◌, ◌<◌, ◌≤◌, IsTrue, IfSome, None};
ghost use Rattle.cpu_table.specs.Layout.{areas_end, layout_refusal, layout_fits};
ghost use Rattle.cpu_table.specs.Ranges.{smram_fits, area_fits};
ghost use Rattle.smbase_reloc.specs.Pools.{pool_of, pool_in};

use crate::accept::layout;
use cpu_table::Smram;

/// The bytes of a page.
const PAGE: u64 = 4096;

/// Pages of 4,096 bytes.
#[derive(Clone, Copy, Debug, PartialEq, Eq)]
pub struct PoolRange {
    /// The address of the first page, a multiple of 4,096.
    pub start: u64,
    /// How many there are, at most 2,048.
    pub pages: u32,
}

/// The pages of a platform's pool: those that begin where the layout ends, or above, and end where
/// the area ends, or below. None without an area.
pub fn pool_range(smram: &Option<Smram>, n: u16) -> PoolRange
    requires some { 1 ≤ n }
    requires few { n ≤ 64 }
    requires fits { IsTrue (smram_fits smram.now) }
    requires accepted { IsTrue (layout_fits n smram.now) }
    ensures range { result ≡ pool_of n smram.now }
    ensures aligned { result.start % 4096 ≡ 0 }
    ensures low { result.start < 2 ^ 63 }
    ensures few { result.pages ≤ 2048 }
    // It begins where the layout ends or above, and ends in the area.
    ensures above { IfSome smram.now (λ area. areas_end area n ≤ result.start) }
    ensures within { IfSome smram.now (λ area. 0 < result.pages → result.start + result.pages * 4096 ≤ area.base + area.size) }
{
    match smram {
        None => PoolRange { start: 0, pages: 0 },
        Some(area) => range_in(area, n),
    }
}

// The pages behind a layout. There is one for the area.
fn range_in(area: &Smram, n: u16) -> PoolRange
    requires some { 1 ≤ n }
    requires few { n ≤ 64 }
    requires fits { IsTrue (area_fits area.now) }
    requires accepted { layout_refusal area.now n ≡ None }
    ensures range { result ≡ pool_in n area.now }
    ensures few { result.pages ≤ 2048 }
    ensures above { areas_end area.now n ≤ result.start }
    ensures within { 0 < result.pages → result.start + result.pages * 4096 ≤ area.now.base + area.now.size }
{
    let end = match layout(area, n) {
        Ok(layout) => layout.end(),
        Err(_) => unreachable!(),
    };
    let first = (end + PAGE - 1) / PAGE;
    let pages = ((area.base + area.size) / PAGE).saturating_sub(first);
    PoolRange {
        start: first * PAGE,
        pages: pages as u32,
    }
}
