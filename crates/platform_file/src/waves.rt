ghost use Rattle.std.specs.Prelude.{◌≡◌, ◌≤◌, [], IfOk, IfErr, Ok, IsTrue, map, length};
ghost use Rattle.toml.specs.View.{view, table_view};
ghost use Rattle.cpu_table.specs.Ranges.{wave_fits, waves_fit};
ghost use Rattle.std.specs.List.{list_all};
ghost use Rattle.platform_document.specs.Reading.{StopsAt, each};
ghost use Rattle.platform_file.specs.Waves.{statuses_at, walks_at, wave_in, wave_after, waves_at};
ghost use Rattle.platform_document.specs.declared.path.TablePlace.TheVariants as place;

use crate::head::wave_entries;
use cpu_table::{Arrival, Items, Wave};
use platform_document::{
    Key, Path, TablePlace, WalkFault, entry_of, list_at, refuse_others, words_of,
};
use smm_base::HandlerType;
use std::alloc::Global;
use toml::{Table, Value};

const KEYS: [Key; 2] = [Key::Status, Key::Manage];

// How a wave finds each processor.
fn statuses_at(
    alloc: Global,
    table: &Table,
    path: Path,
    processors: u16,
) -> Result<Items<Arrival>, WalkFault>
    ensures statuses { IfOk result (λ statuses. statuses_at processors path (table_view table.now) ≡ Ok statuses) }
    ensures count { IfOk result (λ statuses. length statuses ≡ processors) }
    ensures refused { IfErr result (StopsAt (statuses_at processors path (table_view table.now))) }
{
    let count = usize::from(processors);
    let values = list_at(table, path, count, count)?;
    let statuses = words_of(alloc, values, path)?;
    Ok(Items::new(statuses))
}

// The walks of a wave, at most 16.
fn walks_at(alloc: Global, table: &Table, path: Path) -> Result<Items<HandlerType>, WalkFault>
    ensures walks { IfOk result (λ walks. walks_at path (table_view table.now) ≡ Ok walks) }
    ensures few { IfOk result (λ walks. length walks ≤ 16) }
    ensures refused { IfErr result (StopsAt (walks_at path (table_view table.now))) }
{
    let values = list_at(table, path, 0, 16)?;
    let walks = words_of(alloc, values, path)?;
    Ok(Items::new(walks))
}

// The wave that a table tells.
fn wave_in(
    alloc: Global,
    table: &Table,
    place: TablePlace,
    processors: u16,
) -> Result<Wave, WalkFault>
    ensures wave { IfOk result (λ wave. wave_in processors place (table_view table.now) ≡ Ok wave) }
    ensures fits { IfOk result (λ wave. IsTrue (wave_fits processors wave)) }
    ensures refused { IfErr result (StopsAt (wave_in processors place (table_view table.now))) }
{
    let status = Path {
        place,
        key: Key::Status,
    };
    let manage = Path {
        place,
        key: Key::Manage,
    };
    let status = statuses_at(alloc, table, status, processors)?;
    let manage = walks_at(alloc, table, manage)?;
    refuse_others(alloc, table, place, &KEYS)?;
    Ok(Wave { status, manage })
}

// The next wave.
fn wave_after(
    alloc: Global,
    value: &Value,
    done: &[Wave],
    processors: u16,
) -> Result<Wave, WalkFault>
    ensures wave { IfOk result (λ wave. wave_after processors done.now (view value.now) ≡ Ok wave) }
    ensures fits { IfOk result (λ wave. IsTrue (wave_fits processors wave)) }
    ensures refused { IfErr result (StopsAt (wave_after processors done.now (view value.now))) }
{
    let place = TablePlace::Wave(done.len());
    let table = entry_of(value, place)?;
    wave_in(alloc, table, place, processors)
}

// The waves of a list of entries.
fn waves_of(alloc: Global, values: &[Value], processors: u16) -> Result<Vec<Wave>, WalkFault>
    ensures waves { IfOk result (λ waves. each (wave_after processors) [] (map view values.now) ≡ Ok waves.items) }
    ensures count { IfOk result (λ waves. length waves.items ≡ length values.now) }
    ensures fit { IfOk result (λ waves. IsTrue (list_all (wave_fits processors) waves.items)) }
    ensures refused { IfErr result (StopsAt (each (wave_after processors) [] (map view values.now))) }
{
    let mut waves = Vec::with_capacity(alloc, values.len())?;
    for value in values {
        let wave = wave_after(alloc, value, &waves, processors)?;
        waves.push(wave)?;
    }
    Ok(waves)
}

/// The waves of a file.
pub fn waves_at(
    alloc: Global,
    table: &Table,
    processors: u16,
    visits: u32,
) -> Result<Items<Wave>, WalkFault>
    ensures waves { IfOk result (λ waves. waves_at processors visits (table_view table.now) ≡ Ok waves) }
    ensures fit { IfOk result (λ waves. IsTrue (waves_fit processors visits waves)) }
    ensures refused { IfErr result (StopsAt (waves_at processors visits (table_view table.now))) }
{
    let values = wave_entries(table, visits)?;
    let waves = waves_of(alloc, values, processors)?;
    Ok(Items::new(waves))
}
