ghost use Rattle.std.specs.Prelude.{◌≡◌, ◌≤◌, ◌<◌, [], IfOk, IfErr, IfSome, Ok, IsTrue, map, length};
ghost use Rattle.std.specs.List.{list_all, position};
ghost use Rattle.toml.specs.View.{view, table_view};
ghost use Rattle.cpu_table.specs.Ranges.{op_fits};
ghost use Rattle.platform_document.specs.Reading.{StopsAt, each, path_to};
ghost use Rattle.platform_file.specs.Operations.{handler_named, handler_at, has_name, set_in, read_in, write_in, run_in, check_in, wait_in, alloc_in, free_in, register_in, unregister_in, manage_in, operation_by, operation_keys, operation_in, operation_after};

use cpu_table::{OpDef, Text};
use platform_document::{
    Key, OperationWord, TablePlace, WalkFault, cpu_at, entry_of, into_at, kind_at, member,
    operand_at, path_to, refuse_others, register_at, text_at, width_at, word_at,
};
use std::alloc::Global;
use toml::{Table, Value};

// Has the entry of the list of handlers this name?
fn has_name(entry: &Value, name: &str) -> bool
    ensures { result ≡ has_name name.now (view entry.now) }
{
    match entry.get("name") {
        Some(value) => value.as_str() == Some(name),
        None => false,
    }
}

// The place of the first entry of this name.
fn place_of(handlers: &[Value], name: &str) -> Option<usize>
    ensures place { result ≡ position (λ entry. has_name name.now (view entry)) handlers.now }
    ensures within { IfSome result (λ place. place < length handlers.now) }
{
    handlers.iter().position(|entry| has_name(entry, name))
}

// The place of the first handler of this name.
fn handler_named(handlers: &[Value], name: &str) -> Option<usize>
    ensures place { result ≡ handler_named (map view handlers.now) name.now }
    ensures within { IfSome result (λ place. place < length handlers.now) }
{
    place_of(handlers, name)
}

// The place of the handler that a key `handler` names.
fn handler_at(table: &Table, place: TablePlace, handlers: &[Value]) -> Result<u16, WalkFault>
    requires { length handlers.now ≤ 64 }
    ensures handler { result ≡ handler_at (map view handlers.now) place (table_view table.now) }
    ensures within { IfOk result (λ handler. handler < length handlers.now) }
{
    let path = path_to(place, Key::Handler);
    match member(table, path) {
        Some(value) => match value.as_str() {
            Some(name) => match handler_named(handlers, name) {
                Some(handler) => Ok(handler as u16),
                None => Err(WalkFault::Word(path)),
            },
            None => Err(WalkFault::WrongType(path)),
        },
        None => Err(WalkFault::Missing(path)),
    }
}

fn set_in(table: &Table, place: TablePlace) -> Result<OpDef, WalkFault>
    ensures operation { result ≡ set_in place (table_view table.now) }
    ensures fits { IfOk result (λ operation. IsTrue (op_fits 0 operation)) }
{
    let into = into_at(table, place)?;
    let value = operand_at(table, path_to(place, Key::Value))?;
    Ok(OpDef::Set { into, value })
}

fn read_in(table: &Table, place: TablePlace) -> Result<OpDef, WalkFault>
    ensures operation { result ≡ read_in place (table_view table.now) }
    ensures fits { IfOk result (λ operation. IsTrue (op_fits 0 operation)) }
{
    let cpu = cpu_at(table, place)?;
    let reg = register_at(table, place)?;
    let width = width_at(table, place)?;
    let into = into_at(table, place)?;
    Ok(OpDef::Read {
        cpu,
        reg,
        width,
        into,
    })
}

fn write_in(table: &Table, place: TablePlace) -> Result<OpDef, WalkFault>
    ensures operation { result ≡ write_in place (table_view table.now) }
    ensures fits { IfOk result (λ operation. IsTrue (op_fits 0 operation)) }
{
    let cpu = cpu_at(table, place)?;
    let reg = register_at(table, place)?;
    let width = width_at(table, place)?;
    let value = operand_at(table, path_to(place, Key::Value))?;
    Ok(OpDef::Write {
        cpu,
        reg,
        width,
        value,
    })
}

// How an operation has a processor run a procedure.
#[derive(Clone, Copy)]
enum Run {
    // The processor that asks waits for it.
    Start,
    // It goes on.
    Launch,
}

// The keys of `start` and `launch`, which are the same.
fn run_in(alloc: Global, table: &Table, place: TablePlace, run: Run) -> Result<OpDef, WalkFault>
    ensures operation { IfOk result (λ operation. run_in run place (table_view table.now) ≡ Ok operation) }
    ensures fits { IfOk result (λ operation. IsTrue (op_fits 0 operation)) }
    ensures refused { IfErr result (StopsAt (run_in run place (table_view table.now))) }
{
    let cpu = cpu_at(table, place)?;
    let procedure = text_at(alloc, table, path_to(place, Key::Procedure))?;
    let arg = operand_at(table, path_to(place, Key::Arg))?;
    let into = into_at(table, place)?;
    match run {
        Run::Start => Ok(OpDef::Start {
            cpu,
            procedure,
            arg,
            into,
        }),
        Run::Launch => Ok(OpDef::Launch {
            cpu,
            procedure,
            arg,
            into,
        }),
    }
}

fn check_in(table: &Table, place: TablePlace) -> Result<OpDef, WalkFault>
    ensures operation { result ≡ check_in place (table_view table.now) }
    ensures fits { IfOk result (λ operation. IsTrue (op_fits 0 operation)) }
{
    let token = operand_at(table, path_to(place, Key::Token))?;
    Ok(OpDef::Check { token })
}

fn wait_in(table: &Table, place: TablePlace) -> Result<OpDef, WalkFault>
    ensures operation { result ≡ wait_in place (table_view table.now) }
    ensures fits { IfOk result (λ operation. IsTrue (op_fits 0 operation)) }
{
    let token = operand_at(table, path_to(place, Key::Token))?;
    let into = into_at(table, place)?;
    Ok(OpDef::Wait { token, into })
}

fn alloc_in(table: &Table, place: TablePlace) -> Result<OpDef, WalkFault>
    ensures operation { result ≡ alloc_in place (table_view table.now) }
    ensures fits { IfOk result (λ operation. IsTrue (op_fits 0 operation)) }
{
    let size = operand_at(table, path_to(place, Key::Size))?;
    let into = into_at(table, place)?;
    Ok(OpDef::Alloc { size, into })
}

fn free_in(table: &Table, place: TablePlace) -> Result<OpDef, WalkFault>
    ensures operation { result ≡ free_in place (table_view table.now) }
    ensures fits { IfOk result (λ operation. IsTrue (op_fits 0 operation)) }
{
    let freed = operand_at(table, path_to(place, Key::Place))?;
    Ok(OpDef::Free { place: freed })
}

fn register_in(table: &Table, place: TablePlace, handlers: &[Value]) -> Result<OpDef, WalkFault>
    requires { length handlers.now ≤ 64 }
    ensures operation { result ≡ register_in (map view handlers.now) place (table_view table.now) }
    ensures fits { IfOk result (λ operation. IsTrue (op_fits (length handlers.now) operation)) }
{
    let handler = handler_at(table, place, handlers)?;
    let kind = kind_at(table, place)?;
    let into = into_at(table, place)?;
    Ok(OpDef::Register {
        handler,
        kind,
        into,
    })
}

fn unregister_in(table: &Table, place: TablePlace) -> Result<OpDef, WalkFault>
    ensures operation { result ≡ unregister_in place (table_view table.now) }
    ensures fits { IfOk result (λ operation. IsTrue (op_fits 0 operation)) }
{
    let handle = operand_at(table, path_to(place, Key::Handle))?;
    Ok(OpDef::Unregister { handle })
}

fn manage_in(table: &Table, place: TablePlace) -> Result<OpDef, WalkFault>
    ensures operation { result ≡ manage_in place (table_view table.now) }
    ensures fits { IfOk result (λ operation. IsTrue (op_fits 0 operation)) }
{
    let kind = kind_at(table, place)?;
    Ok(OpDef::Manage { kind })
}

// The keys of an operation after its `op`.
fn operation_by(
    alloc: Global,
    table: &Table,
    place: TablePlace,
    handlers: &[Value],
    word: OperationWord,
) -> Result<OpDef, WalkFault>
    requires { length handlers.now ≤ 64 }
    ensures operation { IfOk result (λ operation. operation_by (map view handlers.now) place (table_view table.now) word ≡ Ok operation) }
    ensures fits { IfOk result (λ operation. IsTrue (op_fits (length handlers.now) operation)) }
    ensures refused { IfErr result (StopsAt (operation_by (map view handlers.now) place (table_view table.now) word)) }
{
    match word {
        OperationWord::Set => set_in(table, place),
        OperationWord::Read => read_in(table, place),
        OperationWord::Write => write_in(table, place),
        OperationWord::Start => run_in(alloc, table, place, Run::Start),
        OperationWord::Launch => run_in(alloc, table, place, Run::Launch),
        OperationWord::Check => check_in(table, place),
        OperationWord::Wait => wait_in(table, place),
        OperationWord::Alloc => alloc_in(table, place),
        OperationWord::Free => free_in(table, place),
        OperationWord::Register => register_in(table, place, handlers),
        OperationWord::Unregister => unregister_in(table, place),
        OperationWord::Manage => manage_in(table, place),
    }
}

// The keys of an operation.
fn operation_keys(word: OperationWord) -> &'static [Key]
    ensures { result.now ≡ operation_keys word }
{
    match word {
        OperationWord::Set => &[Key::Op, Key::Into, Key::Value],
        OperationWord::Read => &[Key::Op, Key::Cpu, Key::Reg, Key::Width, Key::Into],
        OperationWord::Write => &[Key::Op, Key::Cpu, Key::Reg, Key::Width, Key::Value],
        OperationWord::Start => &[Key::Op, Key::Cpu, Key::Procedure, Key::Arg, Key::Into],
        OperationWord::Launch => &[Key::Op, Key::Cpu, Key::Procedure, Key::Arg, Key::Into],
        OperationWord::Check => &[Key::Op, Key::Token],
        OperationWord::Wait => &[Key::Op, Key::Token, Key::Into],
        OperationWord::Alloc => &[Key::Op, Key::Size, Key::Into],
        OperationWord::Free => &[Key::Op, Key::Place],
        OperationWord::Register => &[Key::Op, Key::Handler, Key::Type, Key::Into],
        OperationWord::Unregister => &[Key::Op, Key::Handle],
        OperationWord::Manage => &[Key::Op, Key::Type],
    }
}

// The operation that a table tells.
fn operation_in(
    alloc: Global,
    table: &Table,
    place: TablePlace,
    handlers: &[Value],
) -> Result<OpDef, WalkFault>
    requires { length handlers.now ≤ 64 }
    ensures operation { IfOk result (λ operation. operation_in (map view handlers.now) place (table_view table.now) ≡ Ok operation) }
    ensures fits { IfOk result (λ operation. IsTrue (op_fits (length handlers.now) operation)) }
    ensures refused { IfErr result (StopsAt (operation_in (map view handlers.now) place (table_view table.now))) }
{
    let word = word_at(table, path_to(place, Key::Op))?;
    let operation = operation_by(alloc, table, place, handlers, word)?;
    refuse_others(alloc, table, place, operation_keys(word))?;
    Ok(operation)
}

// The next operation of a handler.
fn operation_after(
    alloc: Global,
    value: &Value,
    handler: usize,
    done: &[OpDef],
    handlers: &[Value],
) -> Result<OpDef, WalkFault>
    requires { length handlers.now ≤ 64 }
    ensures operation { IfOk result (λ operation. operation_after (map view handlers.now) handler done.now (view value.now) ≡ Ok operation) }
    ensures fits { IfOk result (λ operation. IsTrue (op_fits (length handlers.now) operation)) }
    ensures refused { IfErr result (StopsAt (operation_after (map view handlers.now) handler done.now (view value.now))) }
{
    let place = TablePlace::Operation(handler, done.len());
    let table = entry_of(value, place)?;
    operation_in(alloc, table, place, handlers)
}

/// The operations of a handler, each read where it stands. `handlers` are all entries of the list of
/// handlers, whose names an operation may use.
pub fn operations_of(
    alloc: Global,
    values: &[Value],
    handler: usize,
    handlers: &[Value],
) -> Result<Vec<OpDef>, WalkFault>
    requires { length handlers.now ≤ 64 }
    ensures operations { IfOk result (λ operations. each (operation_after (map view handlers.now) handler) [] (map view values.now) ≡ Ok operations.items) }
    ensures count { IfOk result (λ operations. length operations.items ≡ length values.now) }
    ensures fit { IfOk result (λ operations. IsTrue (list_all (op_fits (length handlers.now)) operations.items)) }
    ensures refused { IfErr result (StopsAt (each (operation_after (map view handlers.now) handler) [] (map view values.now))) }
{
    let mut operations = Vec::with_capacity(alloc, values.len())?;
    for value in values {
        let operation = operation_after(alloc, value, handler, &operations, handlers)?;
        operations.push(operation)?;
    }
    Ok(operations)
}
