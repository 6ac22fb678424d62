ghost use Rattle.std.specs.Prelude.{◌≡◌, ◌≤◌, [], IfOk, IfErr, Ok, IsTrue, IsFalse, map, length};
ghost use Rattle.std.specs.List.{list_all};
ghost use Rattle.toml.specs.View.{view, table_view};
ghost use Rattle.cpu_table.specs.Ranges.{is_name, is_answer, op_fits, handler_fits, handlers_fit};
ghost use Rattle.platform_document.specs.Reading.{StopsAt, path_to, word_at};
ghost use Rattle.platform_document.specs.Words.{answer_of};
ghost use Rattle.platform_document.specs.declared.path.TablePlace.TheVariants as place;
ghost use Rattle.platform_file.specs.Handlers.{name_unless, name_at, has_handler, operations_at, handler_in, handler_after, handlers_in, handlers_at};

use crate::head::handler_entries;
use crate::operations::operations_of;
use cpu_table::{HandlerDef, Items, OpDef, Text};
use platform_document::{
    Key, Path, TablePlace, WalkFault, entry_of, list_at, path_to, refuse_others, text_at, word_at,
};
use smm_base::Status;
use std::alloc::Global;
use toml::{Table, Value};

const KEYS: [Key; 4] = [Key::Name, Key::Type, Key::Answer, Key::Ops];

/// Is the text a name of 1 to 32 bytes?
pub fn is_name(name: &Text) -> bool
    ensures { result ≡ is_name name.now }
{
    let count = name.as_str().len();
    1 <= count && count <= 32
}

/// A name that is too short or too long, or taken, is refused.
pub fn name_after(name: Text, is_taken: bool, path: Path) -> Result<Text, WalkFault>
    ensures { result ≡ name_unless is_taken path name }
{
    if is_name(&name) && !is_taken {
        Ok(name)
    } else {
        Err(WalkFault::Word(path))
    }
}

// Has one of the handlers this name?
fn is_taken(done: &[HandlerDef], name: &Text) -> bool
    ensures { result ≡ has_handler done.now name.now }
{
    done.iter()
        .any(|handler| handler.name.as_str() == name.as_str())
}

// The name of the next handler.
fn name_at(alloc: Global, table: &Table, done: &[HandlerDef], path: Path) -> Result<Text, WalkFault>
    ensures name { IfOk result (λ name. name_at (has_handler done.now) path (table_view table.now) ≡ Ok name) }
    ensures fits { IfOk result (λ name. IsTrue (is_name name)) }
    ensures fresh { IfOk result (λ name. IsFalse (has_handler done.now name)) }
    ensures refused { IfErr result (StopsAt (name_at (has_handler done.now) path (table_view table.now))) }
{
    let name = text_at(alloc, table, path)?;
    let is_taken = is_taken(done, &name);
    name_after(name, is_taken, path)
}

// The status that a handler answers with.
fn answer_at(table: &Table, path: Path) -> Result<Status, WalkFault>
    ensures answer { result ≡ word_at path answer_of (table_view table.now) }
    ensures fits { IfOk result (λ answer. IsTrue (is_answer answer)) }
{
    word_at(table, path)
}

// The operations of the handler at this place, at most 64.
fn operations_at(
    alloc: Global,
    table: &Table,
    at: usize,
    handlers: &[Value],
) -> Result<Items<OpDef>, WalkFault>
    requires { length handlers.now ≤ 64 }
    ensures operations { IfOk result (λ operations. operations_at (map view handlers.now) at (table_view table.now) ≡ Ok operations) }
    ensures few { IfOk result (λ operations. length operations ≤ 64) }
    ensures fit { IfOk result (λ operations. IsTrue (list_all (op_fits (length handlers.now)) operations)) }
    ensures refused { IfErr result (StopsAt (operations_at (map view handlers.now) at (table_view table.now))) }
{
    let values = list_at(table, path_to(TablePlace::Handler(at), Key::Ops), 0, 64)?;
    let operations = operations_of(alloc, values, at, handlers)?;
    Ok(Items::new(operations))
}

// The handler that a table tells.
fn handler_in(
    alloc: Global,
    table: &Table,
    done: &[HandlerDef],
    handlers: &[Value],
) -> Result<HandlerDef, WalkFault>
    requires { length handlers.now ≤ 64 }
    ensures handler { IfOk result (λ handler. handler_in (map view handlers.now) done.now (length done.now) (table_view table.now) ≡ Ok handler) }
    ensures fits { IfOk result (λ handler. IsTrue (handler_fits (length handlers.now) handler)) }
    ensures fresh { IfOk result (λ handler. IsFalse (has_handler done.now handler.name)) }
    ensures refused { IfErr result (StopsAt (handler_in (map view handlers.now) done.now (length done.now) (table_view table.now))) }
{
    let at = done.len();
    let name = name_at(
        alloc,
        table,
        done,
        path_to(TablePlace::Handler(at), Key::Name),
    )?;
    let kind = word_at(table, path_to(TablePlace::Handler(at), Key::Type))?;
    let answer = answer_at(table, path_to(TablePlace::Handler(at), Key::Answer))?;
    let ops = operations_at(alloc, table, at, handlers)?;
    refuse_others(alloc, table, TablePlace::Handler(at), &KEYS)?;
    Ok(HandlerDef {
        name,
        kind,
        answer,
        ops,
    })
}

// The next handler.
fn handler_after(
    alloc: Global,
    value: &Value,
    done: &[HandlerDef],
    handlers: &[Value],
) -> Result<HandlerDef, WalkFault>
    requires { length handlers.now ≤ 64 }
    ensures handler { IfOk result (λ handler. handler_after (map view handlers.now) done.now (view value.now) ≡ Ok handler) }
    ensures fits { IfOk result (λ handler. IsTrue (handler_fits (length handlers.now) handler)) }
    ensures fresh { IfOk result (λ handler. IsFalse (has_handler done.now handler.name)) }
    ensures refused { IfErr result (StopsAt (handler_after (map view handlers.now) done.now (view value.now))) }
{
    let table = entry_of(value, TablePlace::Handler(done.len()))?;
    handler_in(alloc, table, done, handlers)
}

// The handlers of the entries.
fn handlers_of(alloc: Global, handlers: &[Value]) -> Result<Vec<HandlerDef>, WalkFault>
    requires { length handlers.now ≤ 64 }
    ensures handlers { IfOk result (λ defs. handlers_in (map view handlers.now) ≡ Ok defs.items) }
    ensures fit { IfOk result (λ defs. IsTrue (handlers_fit defs.items)) }
    ensures refused { IfErr result (StopsAt (handlers_in (map view handlers.now))) }
{
    let mut defs = Vec::with_capacity(alloc, handlers.len())?;
    for value in handlers {
        let handler = handler_after(alloc, value, &defs, handlers)?;
        defs.push(handler)?;
    }
    Ok(defs)
}

/// The handlers of a file.
pub fn handlers_at(alloc: Global, table: &Table) -> Result<Items<HandlerDef>, WalkFault>
    ensures handlers { IfOk result (λ handlers. handlers_at (table_view table.now) ≡ Ok handlers) }
    ensures fit { IfOk result (λ handlers. IsTrue (handlers_fit handlers)) }
    ensures refused { IfErr result (StopsAt (handlers_at (table_view table.now))) }
{
    let entries = handler_entries(table)?;
    let handlers = handlers_of(alloc, entries)?;
    Ok(Items::new(handlers))
}
