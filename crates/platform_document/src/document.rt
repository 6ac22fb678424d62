ghost use Rattle.std.specs.Prelude.{◌≡◌, ◌≤◌, [], IfOk, IfErr, OnOk, Ok, Err, map, length, None, not, string_bytes};
ghost use Rattle.std.specs.List.{find};
ghost use Rattle.std.specs.BTreeMap.{keys};
ghost use Rattle.std.specs.Option.{option_map};
ghost use Rattle.std.specs.Result.{result_map_both};
ghost use Rattle.toml.specs.View.{view, table_view};
ghost use Rattle.platform_document.specs.Reading.{StopsAt, found_at, integer_of, flag_of, table_of, entry_of, list_of, counted, number_within, number_value, number_at, text_at, word_of, word_at, each, word_after, list_at, entries_at, is_known, unknown_in, IsOther};

use crate::fault::WalkFault;
use crate::path::{Key, Path, TablePlace};
use crate::word::Word;
use cpu_table::Text;
use std::alloc::Global;
use toml::{Table, Value};

/// The greatest integer of a TOML file.
pub const GREATEST: u64 = 9223372036854775807;

/// What a table holds at a key.
pub fn member<'a>(table: &'a Table, path: Path) -> Option<&'a Value>
    ensures { option_map (λ value. view value.now) result ≡ found_at path (table_view table.now) }
{
    table.get(path.key.text())
}

// The integer of a value.
fn integer_of(value: &Value, path: Path) -> Result<i64, WalkFault>
    ensures { result ≡ integer_of path (view value.now) }
{
    match value.as_integer() {
        Some(number) => Ok(number),
        None => Err(WalkFault::WrongType(path)),
    }
}

/// A number within its range.
pub fn number_within(number: i64, path: Path, first: u64, last: u64) -> Result<u64, WalkFault>
    ensures number { result ≡ number_within path first last number }
    ensures within { IfOk result (λ n. (first ≤ n) × (n ≤ last)) }
{
    match u64::try_from(number) {
        Ok(natural) if first <= natural && natural <= last => Ok(natural),
        _ => Err(WalkFault::Range(path, number)),
    }
}

/// The number of a value, within its range.
pub fn number_value(value: &Value, path: Path, first: u64, last: u64) -> Result<u64, WalkFault>
    ensures number { result ≡ number_value path first last (view value.now) }
    ensures within { IfOk result (λ n. (first ≤ n) × (n ≤ last)) }
{
    let number = integer_of(value, path)?;
    number_within(number, path, first, last)
}

/// The number that a key holds, within its range.
pub fn number_at(table: &Table, path: Path, first: u64, last: u64) -> Result<u64, WalkFault>
    ensures number { result ≡ number_at path first last (table_view table.now) }
    ensures within { IfOk result (λ n. (first ≤ n) × (n ≤ last)) }
{
    match member(table, path) {
        Some(value) => number_value(value, path, first, last),
        None => Err(WalkFault::Missing(path)),
    }
}

/// What the text of a value stands for.
pub fn word_of<W: Word + Drop>(value: &Value, path: Path) -> Result<W, WalkFault>
    ensures { result ≡ word_of path W.meaning (view value.now) }
{
    match value.as_str() {
        Some(text) => match W::of(text) {
            Some(word) => Ok(word),
            None => Err(WalkFault::Word(path)),
        },
        None => Err(WalkFault::WrongType(path)),
    }
}

/// What the text at a key stands for.
pub fn word_at<W: Word + Drop>(table: &Table, path: Path) -> Result<W, WalkFault>
    ensures { result ≡ word_at path W.meaning (table_view table.now) }
{
    match member(table, path) {
        Some(value) => word_of(value, path),
        None => Err(WalkFault::Missing(path)),
    }
}

/// What the texts of a list stand for.
pub fn words_of<W: Word + Drop>(
    alloc: Global,
    values: &[Value],
    path: Path,
) -> Result<Vec<W>, WalkFault>
    ensures words { IfOk result (λ words. each (word_after path W.meaning) [] (map view values.now) ≡ Ok words.items) }
    ensures count { IfOk result (λ words. length words.items ≡ length values.now) }
    ensures refused { IfErr result (StopsAt (each (word_after path W.meaning) [] (map view values.now))) }
{
    let mut words = Vec::with_capacity(alloc, values.len())?;
    for value in values {
        let word = word_of(value, path)?;
        words.push(word)?;
    }
    Ok(words)
}

/// A copy of the text at a key.
pub fn text_at(alloc: Global, table: &Table, path: Path) -> Result<Text, WalkFault>
    ensures text { IfOk result (λ text. text_at path (table_view table.now) ≡ Ok text) }
    ensures refused { IfErr result (StopsAt (text_at path (table_view table.now))) }
{
    match member(table, path) {
        Some(value) => match value.as_str() {
            Some(text) => Ok(Text::from_str(alloc, text)?),
            None => Err(WalkFault::WrongType(path)),
        },
        None => Err(WalkFault::Missing(path)),
    }
}

/// The flag of a value.
pub fn flag_of(value: &Value, path: Path) -> Result<bool, WalkFault>
    ensures { result ≡ flag_of path (view value.now) }
{
    match value.as_bool() {
        Some(flag) => Ok(flag),
        None => Err(WalkFault::WrongType(path)),
    }
}

/// The table of a value.
pub fn table_of<'a>(value: &'a Value, path: Path) -> Result<&'a Table, WalkFault>
    ensures { result_map_both (λ table. table_view table.now) (λ fault. fault) result ≡ table_of path (view value.now) }
{
    match value.as_table() {
        Some(table) => Ok(table),
        None => Err(WalkFault::WrongType(path)),
    }
}

/// The table of an entry of a list.
pub fn entry_of<'a>(value: &'a Value, place: TablePlace) -> Result<&'a Table, WalkFault>
    ensures { result_map_both (λ table. table_view table.now) (λ fault. fault) result ≡ entry_of place (view value.now) }
{
    match value.as_table() {
        Some(table) => Ok(table),
        None => Err(WalkFault::NoTable(place)),
    }
}

// A list with a length within its range.
fn counted<'a>(
    values: &'a [Value],
    path: Path,
    first: usize,
    last: usize,
) -> Result<&'a [Value], WalkFault>
    ensures list { result_map_both (λ values. map view values.now) (λ fault. fault) result ≡ counted path first last (map view values.now) }
    ensures length { IfOk result (λ values. (first ≤ length values.now) × (length values.now ≤ last)) }
{
    let count = values.len();
    if first <= count && count <= last {
        Ok(values)
    } else {
        Err(WalkFault::Range(path, count as i64))
    }
}

/// The list of a value.
pub fn list_of<'a>(
    value: &'a Value,
    path: Path,
    first: usize,
    last: usize,
) -> Result<&'a [Value], WalkFault>
    ensures list { result_map_both (λ values. map view values.now) (λ fault. fault) result ≡ list_of path first last (view value.now) }
    ensures length { IfOk result (λ values. (first ≤ length values.now) × (length values.now ≤ last)) }
{
    match value.as_array() {
        Some(values) => counted(values, path, first, last),
        None => Err(WalkFault::WrongType(path)),
    }
}

/// The list at a key.
pub fn list_at<'a>(
    table: &'a Table,
    path: Path,
    first: usize,
    last: usize,
) -> Result<&'a [Value], WalkFault>
    ensures list { result_map_both (λ values. map view values.now) (λ fault. fault) result ≡ list_at path first last (table_view table.now) }
    ensures length { IfOk result (λ values. (first ≤ length values.now) × (length values.now ≤ last)) }
{
    match member(table, path) {
        Some(value) => list_of(value, path, first, last),
        None => Err(WalkFault::Missing(path)),
    }
}

/// The list at a key that may be missing: it has no entry then.
pub fn entries_at<'a>(table: &'a Table, path: Path, last: usize) -> Result<&'a [Value], WalkFault>
    ensures list { result_map_both (λ values. map view values.now) (λ fault. fault) result ≡ entries_at path last (table_view table.now) }
    ensures length { IfOk result (λ values. length values.now ≤ last) }
{
    match member(table, path) {
        Some(value) => list_of(value, path, 0, last),
        None => Ok(&[]),
    }
}

// Is the name one of the keys?
fn is_known(keys: &[Key], name: &str) -> bool
    ensures { result ≡ is_known keys.now name.now }
{
    keys.iter().any(|key| key.text() == name)
}

// The first key of a table that is none of the keys, in byte order.
fn first_other<'a>(table: &'a Table, known: &[Key]) -> Option<&'a String>
    ensures { option_map (λ name. name.now) result ≡ find (λ name. not (is_known known.now (string_bytes name))) (keys table.now) }
{
    table.keys().find(|name| !is_known(known, name.as_str()))
}

fn unknown_in<'a>(table: &'a Table, known: &[Key]) -> Option<&'a String>
    ensures { option_map (λ name. string_bytes name.now) result ≡ unknown_in known.now (table_view table.now) }
{
    first_other(table, known)
}

/// Refuses a table that has another key.
pub fn refuse_others(
    alloc: Global,
    table: &Table,
    place: TablePlace,
    keys: &[Key],
) -> Result<(), WalkFault>
    ensures none { OnOk result (unknown_in keys.now (table_view table.now) ≡ None) }
    ensures refused { IfErr result (IsOther place (unknown_in keys.now (table_view table.now))) }
{
    match unknown_in(table, keys) {
        Some(name) => Err(WalkFault::Unknown(place, Text::from_str(alloc, name.as_str())?)),
        None => Ok(()),
    }
}
