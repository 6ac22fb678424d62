ghost use Rattle.std.specs.Prelude.{◌≡◌, ◌+◌, ◌^◌, ◌≤◌, None, Some, IfOk, IfErr, OnOk};
ghost use Rattle.cpu_table.specs.Layout.{layout_refusal};
ghost use Rattle.smbase_reloc.specs.Areas.{PlacesAreDisjoint, PlacesAvoidDefault, PlacesAreWithin};

use crate::places::Layout;
use cpu_table::{LayoutError, Smram, layout_fault};

/// The layout of an area for `n` processors. Refused exactly as `layout_fault` says.
pub fn layout(smram: &Smram, n: u16) -> Result<Layout, LayoutError>
    requires some { 1 ≤ n }
    requires few { n ≤ 64 }
    requires below { smram.now.base + smram.now.size ≤ 2 ^ 32 }
    ensures layout { IfOk result (λ layout. layout ≡ record { area = smram.now; processors = n }) }
    ensures accepted { OnOk result (layout_refusal smram.now n ≡ None) }
    ensures refused { IfErr result (λ error. layout_refusal smram.now n ≡ Some error) }
    // Any two different places of the processors are disjoint, none meets the default area, and each
    // lies in the area.
    ensures disjoint { OnOk result (PlacesAreDisjoint smram.now n) }
    ensures apart_from_default { OnOk result (PlacesAvoidDefault smram.now n) }
    ensures within { OnOk result (PlacesAreWithin smram.now n) }
{
    match layout_fault(smram, n) {
        Some(error) => Err(error),
        None => Ok(Layout::of(*smram, n)),
    }
}
