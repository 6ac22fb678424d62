ghost use Rattle.std.specs.Prelude.{◌≡◌, ◌<◌, ◌≤◌, ◌-◌, All, IfOk, IfErr, Ok, IsTrue, IsFalse, ◌==◌, [], eqb, map, length};
ghost use Rattle.std.specs.Option.{option_map};
ghost use Rattle.std.specs.Result.{result_map_both};
ghost use Rattle.toml.specs.View.{view, table_view};
ghost use Rattle.cpu_table.specs.Ranges.{policy_fits};
ghost use Rattle.platform_document.specs.Reading.{StopsAt, each, number_value};
ghost use Rattle.platform_document.specs.declared.path.Key.TheVariants as key;
ghost use Rattle.platform_document.specs.declared.fault.WalkFault.TheVariants.{NoMemory};
ghost use Rattle.std.specs.List.{IsDistinct, range_with_len, list_any};
ghost use Rattle.platform_file.specs.Head.{policy_at, polls_at, id_after, ids_at, smram_at, wave_entries, handler_entries, procedure_entries, cause_entries, keys_by, lists_checked, keys_read, head_at, top, HeadFits};

use cpu_table::{CpuTable, Mode, TableError};
use platform_document::{
    GREATEST, Key, Path, PolicyWord, TablePlace, WalkFault, entries_at, list_at, list_of, member,
    number_at, number_value, refuse_others, table_of, word_at,
};
use smm_base::{MapKind, Policy};
use std::alloc::Global;
use toml::{Table, Value};

/// The looks of both rounds of waiting.
#[derive(Clone, Copy)]
pub struct Polls {
    pub t1: u32,
    pub t2: u32,
}

/// The top table of a platform file, but for its lists of tables.
#[derive(Drop)]
pub struct Head {
    pub processors: u16,
    pub kind: MapKind,
    pub policy: Policy,
    pub mode: Mode,
    pub polls: Polls,
    pub visits: u32,
    pub ops: u32,
    pub ids: CpuTable,
}

/// A key of the top table.
pub fn top(key: Key) -> Path
    ensures { result ≡ top key }
{
    Path {
        place: TablePlace::Top,
        key,
    }
}

// The policy: `fixed` names its boot processor by a key of its own.
fn policy_at(table: &Table, processors: u16) -> Result<Policy, WalkFault>
    requires { 1 ≤ processors }
    ensures policy { result ≡ policy_at processors (table_view table.now) }
    ensures fits { IfOk result (λ policy. IsTrue (policy_fits processors policy)) }
{
    match word_at(table, top(Key::Policy))? {
        PolicyWord::Elected => Ok(Policy::Elected),
        PolicyWord::Fixed => {
            let last = u64::from(processors - 1);
            let number = number_at(table, top(Key::Fixed), 0, last)?;
            Ok(Policy::Fixed(number as u16))
        }
    }
}

// A number of looks.
fn looks_of(value: &Value) -> Result<u32, WalkFault>
    ensures looks { result ≡ number_value (top key.Polls) 1 4096 (view value.now) }
    ensures within { IfOk result (λ n. (1 ≤ n) × (n ≤ 4096)) }
{
    let looks = number_value(value, top(Key::Polls), 1, 4096)?;
    Ok(looks as u32)
}

// The looks of both rounds: a list of two numbers.
fn polls_at(table: &Table) -> Result<Polls, WalkFault>
    ensures polls { result ≡ polls_at (table_view table.now) }
    ensures within { IfOk result (λ polls. (1 ≤ polls.t1) × (polls.t1 ≤ 4096) × (1 ≤ polls.t2) × (polls.t2 ≤ 4096)) }
{
    let values = list_at(table, top(Key::Polls), 2, 2)?;
    let t1 = looks_of(&values[0])?;
    let t2 = looks_of(&values[1])?;
    Ok(Polls { t1, t2 })
}

// An id that none before has.
fn id_after(done: &[u64], value: &Value) -> Result<u64, WalkFault>
    ensures id { result ≡ id_after done.now (view value.now) }
    ensures fresh { IfOk result (λ id. IsFalse (list_any (λ x. x == id) done.now)) }
    ensures small { IfOk result (λ id. id < 9223372036854775808) }
{
    let id = number_value(value, top(Key::Ids), 0, GREATEST)?;
    if done.contains(&id) {
        Err(WalkFault::Range(top(Key::Ids), id as i64))
    } else {
        Ok(id)
    }
}

// The ids of a list.
fn ids_in(alloc: Global, values: &[Value]) -> Result<Vec<u64>, WalkFault>
    ensures ids { IfOk result (λ ids. each id_after [] (map view values.now) ≡ Ok ids.items) }
    ensures count { IfOk result (λ ids. length ids.items ≡ length values.now) }
    ensures distinct { IfOk result (λ ids. IsDistinct eqb ids.items) }
    ensures small { IfOk result (λ ids. All (λ id. id < 9223372036854775808) ids.items) }
    ensures refused { IfErr result (StopsAt (each id_after [] (map view values.now))) }
{
    let mut ids = Vec::with_capacity(alloc, values.len())?;
    for value in values {
        let id = id_after(&ids, value)?;
        ids.push(id)?;
    }
    Ok(ids)
}

// The ids of a file, or of a file that has none each processor's number.
fn listed_ids(alloc: Global, table: &Table, processors: u16) -> Result<Vec<u64>, WalkFault>
    ensures ids { IfOk result (λ ids. ids_at processors (table_view table.now) ≡ Ok ids.items) }
    ensures count { IfOk result (λ ids. length ids.items ≡ processors) }
    ensures distinct { IfOk result (λ ids. IsDistinct eqb ids.items) }
    ensures small { IfOk result (λ ids. All (λ id. id < 9223372036854775808) ids.items) }
    ensures refused { IfErr result (StopsAt (ids_at processors (table_view table.now))) }
{
    match member(table, top(Key::Ids)) {
        Some(value) => {
            let count = usize::from(processors);
            let values = list_of(value, top(Key::Ids), count, count)?;
            ids_in(alloc, values)
        }
        None => numbers_below(alloc, processors),
    }
}

// The numbers below a number.
fn numbers_below(alloc: Global, count: u16) -> Result<Vec<u64>, WalkFault>
    ensures numbers { IfOk result (λ numbers. numbers.items ≡ range_with_len 0 count) }
    ensures count { IfOk result (λ numbers. length numbers.items ≡ count) }
    ensures distinct { IfOk result (λ numbers. IsDistinct eqb numbers.items) }
    ensures small { IfOk result (λ numbers. All (λ id. id < 9223372036854775808) numbers.items) }
    ensures refused { IfErr result (λ fault. fault ≡ NoMemory) }
{
    let mut numbers = Vec::with_capacity(alloc, usize::from(count))?;
    for number in 0..u64::from(count) {
        numbers.push(number)?;
    }
    Ok(numbers)
}

// The fault of a table that there was no memory for.
fn fault_of(error: TableError) -> WalkFault
    requires { error ≡ TableError.NoMemory }
    ensures { result ≡ NoMemory }
{
    match error {
        TableError::NoMemory => WalkFault::NoMemory,
        TableError::TooMany(_) | TableError::Repeated(_) => unreachable!(),
    }
}

// The table of the ids: the ids of a file that was read are few enough, and no two the same.
fn ids_at(alloc: Global, table: &Table, processors: u16) -> Result<CpuTable, WalkFault>
    requires { processors ≤ 64 }
    ensures ids { IfOk result (λ ids. ids_at processors (table_view table.now) ≡ Ok ids) }
    ensures length { IfOk result (λ ids. length ids ≡ processors) }
    ensures distinct { IfOk result (λ ids. IsDistinct eqb ids) }
    ensures small { IfOk result (λ ids. All (λ id. id < 9223372036854775808) ids) }
    ensures refused { IfErr result (StopsAt (ids_at processors (table_view table.now))) }
{
    let ids = listed_ids(alloc, table, processors)?;
    match CpuTable::new(alloc, &ids) {
        Ok(ids) => Ok(ids),
        Err(error) => Err(fault_of(error)),
    }
}

/// The table of the save-state areas, where the file has one.
pub fn smram_at(table: &Table) -> Result<Option<&Table>, WalkFault>
    ensures { result_map_both (option_map (λ area. table_view area.now)) (λ fault. fault) result ≡ smram_at (table_view table.now) }
{
    match member(table, top(Key::Smram)) {
        Some(value) => Ok(Some(table_of(value, top(Key::Smram))?)),
        None => Ok(None),
    }
}

/// The waves' entries, from 1 to as many as there are visits.
pub fn wave_entries(table: &Table, visits: u32) -> Result<&[Value], WalkFault>
    ensures list { result_map_both (λ values. map view values.now) (λ fault. fault) result ≡ wave_entries visits (table_view table.now) }
    ensures length { IfOk result (λ values. (1 ≤ length values.now) × (length values.now ≤ visits)) }
{
    list_at(table, top(Key::Wave), 1, visits as usize)
}

/// The handlers' entries, at most 64.
pub fn handler_entries(table: &Table) -> Result<&[Value], WalkFault>
    ensures list { result_map_both (λ values. map view values.now) (λ fault. fault) result ≡ handler_entries (table_view table.now) }
    ensures length { IfOk result (λ values. length values.now ≤ 64) }
{
    entries_at(table, top(Key::Handler), 64)
}

/// The procedures' entries, at most 64.
pub fn procedure_entries(table: &Table) -> Result<&[Value], WalkFault>
    ensures list { result_map_both (λ values. map view values.now) (λ fault. fault) result ≡ procedure_entries (table_view table.now) }
    ensures length { IfOk result (λ values. length values.now ≤ 64) }
{
    entries_at(table, top(Key::Procedure), 64)
}

/// The causes' entries, at most 4,096.
pub fn cause_entries(table: &Table) -> Result<&[Value], WalkFault>
    ensures list { result_map_both (λ values. map view values.now) (λ fault. fault) result ≡ cause_entries (table_view table.now) }
    ensures length { IfOk result (λ values. length values.now ≤ 4096) }
{
    entries_at(table, top(Key::Cause), 4096)
}

// The keys that the top table has beside `fixed`.
const KEYS: [Key; 14] = [
    Key::Version,
    Key::Processors,
    Key::Map,
    Key::Policy,
    Key::Mode,
    Key::Polls,
    Key::Visits,
    Key::Ops,
    Key::Ids,
    Key::Smram,
    Key::Wave,
    Key::Handler,
    Key::Procedure,
    Key::Cause,
];

// The keys of the policy `fixed`.
const FIXED_KEYS: [Key; 15] = [
    Key::Fixed,
    Key::Version,
    Key::Processors,
    Key::Map,
    Key::Policy,
    Key::Mode,
    Key::Polls,
    Key::Visits,
    Key::Ops,
    Key::Ids,
    Key::Smram,
    Key::Wave,
    Key::Handler,
    Key::Procedure,
    Key::Cause,
];

// The keys that the top table has under a policy.
fn keys_by(policy: Policy) -> &'static [Key]
    ensures { result.now ≡ keys_by policy }
{
    match policy {
        Policy::Elected => &KEYS,
        Policy::Fixed(_) => &FIXED_KEYS,
    }
}

// Judges the lists of tables by their kinds and lengths, and then the other keys of the table.
fn check_lists(alloc: Global, table: &Table, head: Head) -> Result<Head, WalkFault>
    ensures checked { IfOk result (λ checked. (checked ≡ head) × (lists_checked (table_view table.now) head ≡ Ok checked)) }
    ensures refused { IfErr result (StopsAt (lists_checked (table_view table.now) head)) }
{
    let _ = smram_at(table)?;
    let _ = wave_entries(table, head.visits)?;
    let _ = handler_entries(table)?;
    let _ = procedure_entries(table)?;
    let _ = cause_entries(table)?;
    refuse_others(alloc, table, TablePlace::Top, keys_by(head.policy))?;
    Ok(head)
}

// The keys of the top table in their order, up to the lists.
fn keys_at(alloc: Global, table: &Table) -> Result<Head, WalkFault>
    ensures head { IfOk result (λ head. keys_read (table_view table.now) ≡ Ok head) }
    ensures refused { IfErr result (StopsAt (keys_read (table_view table.now))) }
    ensures fits { IfOk result HeadFits }
{
    let _ = number_at(table, top(Key::Version), 1, 1)?;
    let processors = number_at(table, top(Key::Processors), 1, 64)? as u16;
    let kind = word_at(table, top(Key::Map))?;
    let policy = policy_at(table, processors)?;
    let mode = word_at(table, top(Key::Mode))?;
    let polls = polls_at(table)?;
    let visits = number_at(table, top(Key::Visits), 1, 256)? as u32;
    let ops = number_at(table, top(Key::Ops), 1, 4096)? as u32;
    let ids = ids_at(alloc, table, processors)?;
    Ok(Head {
        processors,
        kind,
        policy,
        mode,
        polls,
        visits,
        ops,
        ids,
    })
}

/// The top table, but for its lists of tables, which are judged by their kinds and lengths alone.
pub fn head_at(alloc: Global, table: &Table) -> Result<Head, WalkFault>
    ensures head { IfOk result (λ head. head_at (table_view table.now) ≡ Ok head) }
    ensures refused { IfErr result (StopsAt (head_at (table_view table.now))) }
    ensures fits { IfOk result HeadFits }
{
    let head = keys_at(alloc, table)?;
    check_lists(alloc, table, head)
}
