ghost use Rattle.std.specs.Prelude.{◌≡◌, ◌&&◌};
ghost use Rattle.trace_text.specs.Readings.{round_of, variable_of, set_of, read_of, write_of, alloc_of, free_of, register_of, unregister_of, check_of, wait_of, refuse_of, start_of, run_of, return_of, bare_label, service_label, procedure_label, walk_label, session_label, label_of};

use crate::field::Field;
use crate::split::split_at_colon;
use sync_words::{After, HandlerType, Label, Register, StartRefusal, Status};

// A round of waiting: the first or the second.
fn read_round(text: &str) -> Option<u32>
    ensures { result ≡ round_of text.now }
{
    match u32::read(text) {
        Some(round) if 1 <= round && round <= 2 => Some(round),
        _ => None,
    }
}

// The number of a variable.
fn read_variable(text: &str) -> Option<u8>
    ensures { result ≡ variable_of text.now }
{
    match u8::read(text) {
        Some(variable) if variable <= 7 => Some(variable),
        _ => None,
    }
}

// A variable that is set.
fn set_label(fields: &str) -> Option<Label>
    ensures { result ≡ set_of fields.now }
{
    let (variable, value) = split_at_colon(fields)?;
    let variable = read_variable(variable)?;
    let value = u64::read(value)?;
    Some(Label::Set { variable, value })
}

// The fields of a register that is read or written.
type Moved = (u16, (Register, (u32, (u64, Status))));

// A register that is read.
fn register_read_label(fields: &str) -> Option<Label>
    ensures { result ≡ read_of fields.now }
{
    let (cpu, (register, (width, (value, status)))) = Moved::read(fields)?;
    Some(Label::Read {
        cpu,
        register,
        width,
        value,
        status,
    })
}

// A register that is written.
fn register_write_label(fields: &str) -> Option<Label>
    ensures { result ≡ write_of fields.now }
{
    let (cpu, (register, (width, (value, status)))) = Moved::read(fields)?;
    Some(Label::Write {
        cpu,
        register,
        width,
        value,
        status,
    })
}

// A block that is asked for.
fn alloc_label(fields: &str) -> Option<Label>
    ensures { result ≡ alloc_of fields.now }
{
    let (size, (place, status)) = <(u64, (u64, Status))>::read(fields)?;
    Some(Label::Alloc {
        size,
        place,
        status,
    })
}

// A block that is given back.
fn free_label(fields: &str) -> Option<Label>
    ensures { result ≡ free_of fields.now }
{
    let (place, status) = <(u64, Status)>::read(fields)?;
    Some(Label::Free { place, status })
}

// A handler that is registered.
fn registration_label(fields: &str) -> Option<Label>
    ensures { result ≡ register_of fields.now }
{
    let (handler, (serial, status)) = <(u16, (u32, Status))>::read(fields)?;
    Some(Label::Register {
        handler,
        serial,
        status,
    })
}

// A registration that is ended.
fn unregister_label(fields: &str) -> Option<Label>
    ensures { result ≡ unregister_of fields.now }
{
    let (handle, status) = <(u64, Status)>::read(fields)?;
    Some(Label::Unregister { handle, status })
}

// A job that is asked for.
fn check_label(fields: &str) -> Option<Label>
    ensures { result ≡ check_of fields.now }
{
    let (job, status) = <(u64, Status)>::read(fields)?;
    Some(Label::Check { job, status })
}

// A job that is waited for.
fn wait_label(fields: &str) -> Option<Label>
    ensures { result ≡ wait_of fields.now }
{
    let (job, (result_value, status)) = <(u64, (u64, Status))>::read(fields)?;
    Some(Label::Wait {
        job,
        result_value,
        status,
    })
}

// A start that is refused.
fn refuse_label(fields: &str) -> Option<Label>
    ensures { result ≡ refuse_of fields.now }
{
    let (cpu, cause) = <(u16, StartRefusal)>::read(fields)?;
    Some(Label::Refuse { cpu, cause })
}

// A job that is given to a processor.
fn start_label(fields: &str) -> Option<Label>
    ensures { result ≡ start_of fields.now }
{
    let (cpu, (job, (procedure, arg))) = <(u16, (u32, (u16, u64)))>::read(fields)?;
    Some(Label::Start {
        cpu,
        job,
        procedure,
        arg,
    })
}

// A job that is run.
fn run_label(fields: &str) -> Option<Label>
    ensures { result ≡ run_of fields.now }
{
    let (job, (result_value, status)) = <(u32, (u64, Status))>::read(fields)?;
    Some(Label::Run {
        job,
        result_value,
        status,
    })
}

// A handler's answer.
fn return_label(fields: &str) -> Option<Label>
    ensures { result ≡ return_of fields.now }
{
    let (handler, status) = <(u16, Status)>::read(fields)?;
    Some(Label::Return { handler, status })
}

// A label of a service that a handler calls.
fn read_service(word: &str, fields: &str) -> Option<Label>
    ensures { result ≡ service_label word.now fields.now }
{
    match word {
        "set" => set_label(fields),
        "read" => register_read_label(fields),
        "write" => register_write_label(fields),
        "alloc" => alloc_label(fields),
        "free" => free_label(fields),
        "register" => registration_label(fields),
        "unregister" => unregister_label(fields),
        _ => None,
    }
}

// A label of a procedure, or of a service.
fn read_procedure(word: &str, fields: &str) -> Option<Label>
    ensures { result ≡ procedure_label word.now fields.now }
{
    match word {
        "check" => check_label(fields),
        "wait" => wait_label(fields),
        "refuse" => refuse_label(fields),
        "start" => start_label(fields),
        "run" => run_label(fields),
        "collect" => u16::read(fields).map(|cpu| Label::Collect(cpu)),
        _ => read_service(word, fields),
    }
}

// A label of a walk over handlers, or one that serving has beside.
fn read_walk(word: &str, fields: &str) -> Option<Label>
    ensures { result ≡ walk_label word.now fields.now }
{
    match word {
        "begin" => u32::read(fields).map(|wave| Label::Begin(wave)),
        "manage" => HandlerType::read(fields).map(|kind| Label::Manage(kind)),
        "deep" => HandlerType::read(fields).map(|kind| Label::Deep(kind)),
        "call" => u16::read(fields).map(|handler| Label::Call(handler)),
        "return" => return_label(fields),
        "answer" => Status::read(fields).map(|status| Label::Answer(status)),
        _ => read_procedure(word, fields),
    }
}

// A label with fields.
fn read_session(word: &str, fields: &str) -> Option<Label>
    ensures { result ≡ session_label word.now fields.now }
{
    match word {
        "excepted" => u32::read(fields).map(|count| Label::Excepted(count)),
        "wave" => u32::read(fields).map(|wave| Label::Wave(wave)),
        "served" => u32::read(fields).map(|wave| Label::Served(wave)),
        "gather" => u32::read(fields).map(|count| Label::Gather(count)),
        "ready" => u32::read(fields).map(|count| Label::Ready(count)),
        "expire" => read_round(fields).map(|round| Label::Expire(round)),
        "close" => u32::read(fields).map(|count| Label::Close(count)),
        "release" => u16::read(fields).map(|cpu| Label::Release(cpu)),
        "resume" => After::read(fields).map(|after| Label::Resume(after)),
        _ => read_walk(word, fields),
    }
}

// A label without fields.
fn read_bare(text: &str) -> Option<Label>
    ensures { result ≡ bare_label text.now }
{
    match text {
        "-" => Some(Label::Silent),
        "enter" => Some(Label::Enter),
        "turn" => Some(Label::Turn),
        "arrive" => Some(Label::Arrive),
        "late" => Some(Label::Late),
        "elect" => Some(Label::Elect),
        "quit" => Some(Label::Quit),
        "report" => Some(Label::Report),
        "spent" => Some(Label::Spent),
        "done" => Some(Label::Done),
        "depart" => Some(Label::Depart),
        "end" => Some(Label::End),
        "off" => Some(Label::Off),
        _ => None,
    }
}

/// A label: its word, and its fields with a colon before each.
impl Field for Label {
    ghost reading = { label_of };

    fn read(text: &str) -> Option<Self> {
        match split_at_colon(text) {
            Some((word, fields)) => read_session(word, fields),
            None => read_bare(text),
        }
    }
}
