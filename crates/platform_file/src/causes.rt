ghost use Rattle.std.specs.Prelude.{◌≡◌, ◌≤◌, ◌-◌, [], IfOk, IfErr, Ok, Some, IsTrue, IsFalse, map, length};
ghost use Rattle.std.specs.List.{list_any};
ghost use Rattle.toml.specs.View.{view, table_view};
ghost use Rattle.smm_base.specs.Kinds.{is_io_length, is_io_type};
ghost use Rattle.cpu_table.specs.Ranges.{cause_fits, causes_fit};
ghost use Rattle.platform_document.specs.Reading.{StopsAt, each, path_to, flag_of, number_at};
ghost use Rattle.platform_file.specs.Causes.{instruction, length_at, type_at, instruction_in, io_at, halt_at, is_of, visit_at, cause_in, cause_next, cause_after, causes_at};
ghost use Rattle.platform_document.specs.declared.path.TablePlace.TheVariants as place;
ghost use Rattle.platform_document.specs.declared.path.Key.TheVariants as key;

use crate::head::cause_entries;
use cpu_table::{CauseAt, Items};
use platform_document::{
    Key, Path, TablePlace, WalkFault, entry_of, flag_of, member, number_at, path_to, refuse_others,
    table_of,
};
use smm_base::{Cause, IoCause};
use std::alloc::Global;
use toml::{Table, Value};

const KEYS: [Key; 4] = [Key::Cpu, Key::Visit, Key::Halt, Key::Io];

const IO_KEYS: [Key; 3] = [Key::Port, Key::Length, Key::Type];

// The size of an I/O instruction's operand in bytes.
fn length_at(table: &Table, path: Path) -> Result<u8, WalkFault>
    ensures length { result ≡ length_at path (table_view table.now) }
    ensures fits { IfOk result (λ length. IsTrue (is_io_length length)) }
{
    let length = number_at(table, path, 0, 255)?;
    match length {
        1 | 2 | 4 => Ok(length as u8),
        _ => Err(WalkFault::Range(path, length as i64)),
    }
}

// The type of an I/O instruction.
fn type_at(table: &Table, path: Path) -> Result<u8, WalkFault>
    ensures kind { result ≡ type_at path (table_view table.now) }
    ensures fits { IfOk result (λ kind. IsTrue (is_io_type kind)) }
{
    let kind = number_at(table, path, 0, 255)?;
    match kind {
        0..=3 | 6..=9 => Ok(kind as u8),
        _ => Err(WalkFault::Range(path, kind as i64)),
    }
}

// An I/O instruction of these numbers.
fn instruction(port: u16, length: u8, kind: u8) -> IoCause
    requires length_there { IsTrue (is_io_length length) }
    requires kind_there { IsTrue (is_io_type kind) }
    ensures { instruction port length kind ≡ Some result }
{
    IoCause { port, length, kind }
}

// The I/O instruction that a table tells.
fn instruction_in(alloc: Global, table: &Table, place: TablePlace) -> Result<IoCause, WalkFault>
    ensures io { IfOk result (λ io. instruction_in place (table_view table.now) ≡ Ok (Some io)) }
    ensures refused { IfErr result (StopsAt (instruction_in place (table_view table.now))) }
{
    let port = number_at(table, path_to(place, Key::Port), 0, 65535)?;
    let length = length_at(table, path_to(place, Key::Length))?;
    let kind = type_at(table, path_to(place, Key::Type))?;
    refuse_others(alloc, table, place, &IO_KEYS)?;
    Ok(instruction(port as u16, length, kind))
}

// The I/O instruction of the cause at this place, where it has one.
fn io_at(alloc: Global, table: &Table, at: usize) -> Result<Option<IoCause>, WalkFault>
    ensures io { IfOk result (λ io. io_at at (table_view table.now) ≡ Ok io) }
    ensures refused { IfErr result (StopsAt (io_at at (table_view table.now))) }
{
    match member(table, path_to(TablePlace::Cause(at), Key::Io)) {
        Some(value) => {
            let table = table_of(value, path_to(TablePlace::Cause(at), Key::Io))?;
            Ok(Some(instruction_in(alloc, table, TablePlace::Io(at))?))
        }
        None => Ok(None),
    }
}

// Was the processor halted?
fn halt_at(table: &Table, at: usize) -> Result<bool, WalkFault>
    ensures { result ≡ halt_at at (table_view table.now) }
{
    match member(table, path_to(TablePlace::Cause(at), Key::Halt)) {
        Some(value) => flag_of(value, path_to(TablePlace::Cause(at), Key::Halt)),
        None => Ok(false),
    }
}

// Is there a cause of the processor's visit already?
fn is_taken(done: &[CauseAt], cpu: u16, visit: u32) -> bool
    ensures { result ≡ list_any (is_of cpu visit) done.now }
{
    done.iter()
        .any(|cause| cause.cpu == cpu && cause.visit == visit)
}

// The visit of the next cause.
fn visit_at(
    table: &Table,
    done: &[CauseAt],
    at: usize,
    visits: u32,
    cpu: u16,
) -> Result<u32, WalkFault>
    ensures visit { result ≡ visit_at done.now visits (path_to (place.Cause at) key.Visit) cpu (table_view table.now) }
    ensures within { IfOk result (λ visit. (1 ≤ visit) × (visit ≤ visits)) }
    ensures fresh { IfOk result (λ visit. IsFalse (list_any (is_of cpu visit) done.now)) }
{
    let visit = number_at(
        table,
        path_to(TablePlace::Cause(at), Key::Visit),
        1,
        u64::from(visits),
    )? as u32;
    if is_taken(done, cpu, visit) {
        Err(WalkFault::Range(path_to(TablePlace::Cause(at), Key::Visit), i64::from(visit)))
    } else {
        Ok(visit)
    }
}

// The cause that a table tells.
fn cause_in(
    alloc: Global,
    table: &Table,
    done: &[CauseAt],
    processors: u16,
    visits: u32,
) -> Result<CauseAt, WalkFault>
    requires { 1 ≤ processors }
    ensures cause { IfOk result (λ cause. cause_in processors visits done.now (length done.now) (table_view table.now) ≡ Ok cause) }
    ensures fits { IfOk result (λ cause. IsTrue (cause_fits processors visits cause)) }
    ensures fresh { IfOk result (λ cause. IsFalse (list_any (is_of cause.cpu cause.visit) done.now)) }
    ensures refused { IfErr result (StopsAt (cause_in processors visits done.now (length done.now) (table_view table.now))) }
{
    let at = done.len();
    let cpu = number_at(
        table,
        path_to(TablePlace::Cause(at), Key::Cpu),
        0,
        u64::from(processors - 1),
    )? as u16;
    let visit = visit_at(table, done, at, visits, cpu)?;
    let halt = halt_at(table, at)?;
    let io = io_at(alloc, table, at)?;
    refuse_others(alloc, table, TablePlace::Cause(at), &KEYS)?;
    Ok(CauseAt {
        cpu,
        visit,
        cause: Cause { halt, io },
    })
}

// The next cause.
fn cause_next(
    alloc: Global,
    value: &Value,
    done: &[CauseAt],
    processors: u16,
    visits: u32,
) -> Result<CauseAt, WalkFault>
    requires { 1 ≤ processors }
    ensures cause { IfOk result (λ cause. cause_next processors visits done.now (length done.now) (view value.now) ≡ Ok cause) }
    ensures fits { IfOk result (λ cause. IsTrue (cause_fits processors visits cause)) }
    ensures fresh { IfOk result (λ cause. IsFalse (list_any (is_of cause.cpu cause.visit) done.now)) }
    ensures refused { IfErr result (StopsAt (cause_next processors visits done.now (length done.now) (view value.now))) }
{
    let table = entry_of(value, TablePlace::Cause(done.len()))?;
    cause_in(alloc, table, done, processors, visits)
}

// The causes of the entries.
fn causes_of(
    alloc: Global,
    values: &[Value],
    processors: u16,
    visits: u32,
) -> Result<Vec<CauseAt>, WalkFault>
    requires some { 1 ≤ processors }
    requires few { length values.now ≤ 4096 }
    ensures causes { IfOk result (λ causes. each (cause_after processors visits) [] (map view values.now) ≡ Ok causes.items) }
    ensures fit { IfOk result (λ causes. IsTrue (causes_fit processors visits causes.items)) }
    ensures refused { IfErr result (StopsAt (each (cause_after processors visits) [] (map view values.now))) }
{
    let mut causes = Vec::with_capacity(alloc, values.len())?;
    for value in values {
        let cause = cause_next(alloc, value, &causes, processors, visits)?;
        causes.push(cause)?;
    }
    Ok(causes)
}

/// The causes of a file.
pub fn causes_at(
    alloc: Global,
    table: &Table,
    processors: u16,
    visits: u32,
) -> Result<Items<CauseAt>, WalkFault>
    requires { 1 ≤ processors }
    ensures causes { IfOk result (λ causes. causes_at processors visits (table_view table.now) ≡ Ok causes) }
    ensures fit { IfOk result (λ causes. IsTrue (causes_fit processors visits causes)) }
    ensures refused { IfErr result (StopsAt (causes_at processors visits (table_view table.now))) }
{
    let entries = cause_entries(table)?;
    let causes = causes_of(alloc, entries, processors, visits)?;
    Ok(Items::new(causes))
}
