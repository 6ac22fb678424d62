ghost use Rattle.std.specs.Prelude.{◌≡◌, ◌≤◌, ◌+◌, IfOk, IfErr, OnOk, Ok, IsTrue};
ghost use Rattle.cpu_table.specs.Layout.{layout_fits};
ghost use Rattle.toml.specs.View.{table_view};
ghost use Rattle.cpu_table.specs.Ranges.{area_fits, smram_fits};
ghost use Rattle.platform_document.specs.Reading.{StopsAt, path_to};
ghost use Rattle.platform_document.specs.declared.path.TablePlace.TheVariants as place;
ghost use Rattle.platform_file.specs.Area.{size_at, area_in, area_at, layout_judged};

use crate::head::smram_at;
use cpu_table::{Smram, layout_fault};
use platform_document::{GREATEST, Key, TablePlace, WalkFault, number_at, path_to, refuse_others};
use std::alloc::Global;
use toml::Table;

const KEYS: [Key; 4] = [Key::Base, Key::Size, Key::Tile, Key::Code];

// The size of the area, which ends by 4 GiB.
fn size_at(table: &Table, base: u64) -> Result<u64, WalkFault>
    requires { base ≤ 9223372036854775807 }
    ensures size { result ≡ size_at base (table_view table.now) }
    ensures within { IfOk result (λ size. (1 ≤ size) × (size ≤ 8388608) × (base + size ≤ 4294967296)) }
{
    let size = number_at(table, path_to(TablePlace::Smram, Key::Size), 1, 8388608)?;
    if base + size <= 4294967296 {
        Ok(size)
    } else {
        Err(WalkFault::Range(path_to(TablePlace::Smram, Key::Size), size as i64))
    }
}

// The area that a table tells.
fn area_in(alloc: Global, table: &Table) -> Result<Smram, WalkFault>
    ensures area { IfOk result (λ area. area_in (table_view table.now) ≡ Ok area) }
    ensures fits { IfOk result (λ area. IsTrue (area_fits area)) }
    ensures refused { IfErr result (StopsAt (area_in (table_view table.now))) }
{
    let base = number_at(table, path_to(TablePlace::Smram, Key::Base), 0, GREATEST)?;
    let size = size_at(table, base)?;
    let tile = number_at(table, path_to(TablePlace::Smram, Key::Tile), 0, GREATEST)?;
    let code = number_at(table, path_to(TablePlace::Smram, Key::Code), 0, GREATEST)?;
    refuse_others(alloc, table, TablePlace::Smram, &KEYS)?;
    Ok(Smram {
        base,
        size,
        tile,
        code,
    })
}

/// The area of the save states, where the file has one.
pub fn area_at(alloc: Global, table: &Table) -> Result<Option<Smram>, WalkFault>
    ensures area { IfOk result (λ area. area_at (table_view table.now) ≡ Ok area) }
    ensures fits { IfOk result (λ area. IsTrue (smram_fits area)) }
    ensures refused { IfErr result (StopsAt (area_at (table_view table.now))) }
{
    match smram_at(table)? {
        Some(table) => Ok(Some(area_in(alloc, table)?)),
        None => Ok(None),
    }
}

/// Refuses an area, where the file has one, that has no room for the areas of the processors.
pub fn judge_layout(smram: Option<Smram>, processors: u16) -> Result<(), WalkFault>
    requires some { 1 ≤ processors }
    requires fits { IsTrue (smram_fits smram) }
    ensures judged { result ≡ layout_judged processors smram }
    ensures room { OnOk result (IsTrue (layout_fits processors smram)) }
{
    let Some(area) = smram else {
        return Ok(());
    };
    match layout_fault(&area, processors) {
        Some(error) => Err(WalkFault::Layout(error)),
        None => Ok(()),
    }
}
