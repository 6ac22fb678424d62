ghost use Rattle.std.specs.Prelude.{◌≡◌, ◌++◌, IfOk, OnOk, string_bytes};
ghost use Rattle.std.specs.List.{flat_map};
ghost use Rattle.platform_gen.specs.Texts.{comma, mode_word, quoted_word, statuses_text, text_of, write_text, writes_text};

use crate::plan::{Plan, RaxWrite};
use cpu_table::{Arrival, Mode};
use smm_base::NoMemory;
use std::alloc::Global;

fn mode_word(mode: Mode) -> &'static str
    ensures { result.now ≡ mode_word mode }
{
    match mode {
        Mode::Traditional => "traditional",
        Mode::Relaxed => "relaxed",
    }
}

// The word of a status, in quotes.
fn quoted_word(status: Arrival) -> &'static str
    ensures { result.now ≡ quoted_word status }
{
    match status {
        Arrival::Prompt => "\"prompt\"",
        Arrival::Delayed => "\"delayed\"",
        Arrival::Blocked => "\"blocked\"",
        Arrival::Absent => "\"absent\"",
    }
}

// A write, as an entry of the list of operations.
fn write_text(alloc: Global, write: RaxWrite) -> Result<String, NoMemory>
    ensures { IfOk result (λ text. string_bytes text ≡ write_text write) }
{
    let RaxWrite { cpu, value } = write;
    Ok(format!(in alloc;
        "{{op = \"write\", cpu = {cpu}, reg = \"RAX\", width = 8, value = {value}}}"
    )?)
}

// Appends an entry that is not the first.
fn push_entry(text: &mut String, entry: &str) -> Result<(), NoMemory>
    ensures { OnOk result (string_bytes text.new ≡ string_bytes text.old ++ (comma ++ entry.now)) }
{
    text.push_str(", ")?;
    text.push_str(entry)?;
    Ok(())
}

// Appends statuses after a first one.
fn push_statuses(mut text: String, statuses: &[Arrival]) -> Result<String, NoMemory>
    ensures { IfOk result (λ whole. string_bytes whole ≡ string_bytes text ++ flat_map (λ status. comma ++ quoted_word status) statuses.now) }
{
    for status in statuses {
        push_entry(&mut text, quoted_word(*status))?;
    }
    Ok(text)
}

// The statuses of a wave, with commas between.
fn statuses_text(alloc: Global, statuses: &[Arrival]) -> Result<String, NoMemory>
    ensures { IfOk result (λ text. string_bytes text ≡ statuses_text statuses.now) }
{
    match statuses {
        [] => Ok(String::new(alloc)),
        [first, rest @ ..] => {
            let text = String::from_str(alloc, quoted_word(*first))?;
            push_statuses(text, rest)
        }
    }
}

// Appends writes after a first one.
fn push_writes(alloc: Global, mut text: String, writes: &[RaxWrite]) -> Result<String, NoMemory>
    ensures { IfOk result (λ whole. string_bytes whole ≡ string_bytes text ++ flat_map (λ write. comma ++ write_text write) writes.now) }
{
    for write in writes {
        let entry = write_text(alloc, *write)?;
        push_entry(&mut text, entry.as_str())?;
    }
    Ok(text)
}

// The writes, with commas between.
fn writes_text(alloc: Global, writes: &[RaxWrite]) -> Result<String, NoMemory>
    ensures { IfOk result (λ text. string_bytes text ≡ writes_text writes.now) }
{
    match writes {
        [] => Ok(String::new(alloc)),
        [first, rest @ ..] => {
            let text = write_text(alloc, *first)?;
            push_writes(alloc, text, rest)
        }
    }
}

/// The platform file that tells a plan.
pub(crate) fn text_of(alloc: Global, plan: &Plan) -> Result<String, NoMemory>
    ensures { IfOk result (λ text. string_bytes text ≡ text_of plan.now) }
{
    let processors = plan.processors;
    let mode = mode_word(plan.mode);
    let first = statuses_text(alloc, plan.first.as_slice())?;
    let second = statuses_text(alloc, plan.second.as_slice())?;
    let ops = writes_text(alloc, plan.writes.as_slice())?;
    Ok(format!(in alloc;
        "version = 1
processors = {processors}
map = \"intel64\"
policy = \"elected\"
mode = \"{mode}\"
polls = [16, 16]
visits = 8
ops = 64

[[wave]]
status = [{first}]
manage = [\"root\"]

[[wave]]
status = [{second}]
manage = [\"root\"]

[[handler]]
name = \"h0\"
type = \"root\"
answer = \"SUCCESS\"
ops = [{ops}]
"
    )?)
}
