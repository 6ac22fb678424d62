ghost use Rattle.std.specs.Prelude.{◌≡◌, ◌≤◌, [], IfOk, IfErr, Ok, IsTrue, IsFalse, map, length};
ghost use Rattle.toml.specs.View.{view, table_view};
ghost use Rattle.cpu_table.specs.Ranges.{is_name, procedure_fits, procedures_fit};
ghost use Rattle.platform_document.specs.Reading.{StopsAt, each, path_to};
ghost use Rattle.platform_file.specs.Handlers.{name_at, has_procedure, procedure_in, procedure_after, procedures_at};

use crate::handlers::name_after;
use crate::head::procedure_entries;
use cpu_table::{Items, ProcedureDef, Text};
use platform_document::{
    Key, Path, TablePlace, WalkFault, entry_of, path_to, refuse_others, register_at, text_at,
    word_at,
};
use std::alloc::Global;
use toml::{Table, Value};

const KEYS: [Key; 3] = [Key::Name, Key::Act, Key::Reg];

// Has one of the procedures this name?
fn is_taken(done: &[ProcedureDef], name: &Text) -> bool
    ensures { result ≡ has_procedure done.now name.now }
{
    done.iter()
        .any(|procedure| procedure.name.as_str() == name.as_str())
}

// The name of the next procedure.
fn name_at(
    alloc: Global,
    table: &Table,
    done: &[ProcedureDef],
    path: Path,
) -> Result<Text, WalkFault>
    ensures name { IfOk result (λ name. name_at (has_procedure done.now) path (table_view table.now) ≡ Ok name) }
    ensures fits { IfOk result (λ name. IsTrue (is_name name)) }
    ensures fresh { IfOk result (λ name. IsFalse (has_procedure done.now name)) }
    ensures refused { IfErr result (StopsAt (name_at (has_procedure done.now) path (table_view table.now))) }
{
    let name = text_at(alloc, table, path)?;
    let is_taken = is_taken(done, &name);
    name_after(name, is_taken, path)
}

// The procedure that a table tells.
fn procedure_in(
    alloc: Global,
    table: &Table,
    done: &[ProcedureDef],
    place: TablePlace,
) -> Result<ProcedureDef, WalkFault>
    ensures procedure { IfOk result (λ procedure. procedure_in done.now place (table_view table.now) ≡ Ok procedure) }
    ensures fits { IfOk result (λ procedure. IsTrue (procedure_fits procedure)) }
    ensures fresh { IfOk result (λ procedure. IsFalse (has_procedure done.now procedure.name)) }
    ensures refused { IfErr result (StopsAt (procedure_in done.now place (table_view table.now))) }
{
    let name = name_at(alloc, table, done, path_to(place, Key::Name))?;
    let act = word_at(table, path_to(place, Key::Act))?;
    let reg = register_at(table, place)?;
    refuse_others(alloc, table, place, &KEYS)?;
    Ok(ProcedureDef { name, act, reg })
}

// The next procedure.
fn procedure_after(
    alloc: Global,
    value: &Value,
    done: &[ProcedureDef],
) -> Result<ProcedureDef, WalkFault>
    ensures procedure { IfOk result (λ procedure. procedure_after done.now (view value.now) ≡ Ok procedure) }
    ensures fits { IfOk result (λ procedure. IsTrue (procedure_fits procedure)) }
    ensures fresh { IfOk result (λ procedure. IsFalse (has_procedure done.now procedure.name)) }
    ensures refused { IfErr result (StopsAt (procedure_after done.now (view value.now))) }
{
    let place = TablePlace::Procedure(done.len());
    let table = entry_of(value, place)?;
    procedure_in(alloc, table, done, place)
}

// The procedures of the entries.
fn procedures_of(alloc: Global, values: &[Value]) -> Result<Vec<ProcedureDef>, WalkFault>
    requires { length values.now ≤ 64 }
    ensures procedures { IfOk result (λ procedures. each procedure_after [] (map view values.now) ≡ Ok procedures.items) }
    ensures fit { IfOk result (λ procedures. IsTrue (procedures_fit procedures.items)) }
    ensures refused { IfErr result (StopsAt (each procedure_after [] (map view values.now))) }
{
    let mut procedures = Vec::with_capacity(alloc, values.len())?;
    for value in values {
        let procedure = procedure_after(alloc, value, &procedures)?;
        procedures.push(procedure)?;
    }
    Ok(procedures)
}

/// The procedures of a file.
pub fn procedures_at(alloc: Global, table: &Table) -> Result<Items<ProcedureDef>, WalkFault>
    ensures procedures { IfOk result (λ procedures. procedures_at (table_view table.now) ≡ Ok procedures) }
    ensures fit { IfOk result (λ procedures. IsTrue (procedures_fit procedures)) }
    ensures refused { IfErr result (StopsAt (procedures_at (table_view table.now))) }
{
    let entries = procedure_entries(table)?;
    let procedures = procedures_of(alloc, entries)?;
    Ok(Items::new(procedures))
}
