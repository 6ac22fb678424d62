ghost use Rattle.std.specs.Prelude.{◌≡◌, IsTrue};
ghost use Rattle.repeated_lines.specs.Parts.{label_opening, OpensAs};

use smm_base::{After, HandlerType, Register, Status, register_laws};
use sync_words::{Access, Event, Label, StartRefusal, WordId};

fn is_same_word(one: WordId, other: WordId) -> bool
    ensures { IsTrue result → one ≡ other }
{
    match (one, other) {
        (WordId::Counter, WordId::Counter)
        | (WordId::Bsp, WordId::Bsp)
        | (WordId::Inside, WordId::Inside)
        | (WordId::Insync, WordId::Insync)
        | (WordId::Source, WordId::Source)
        | (WordId::Except, WordId::Except) => true,
        (WordId::Pend(one), WordId::Pend(other)) => one == other,
        (WordId::Present(one), WordId::Present(other)) => one == other,
        (WordId::Run(one), WordId::Run(other)) => one == other,
        (WordId::Busy(one), WordId::Busy(other)) => one == other,
        _ => false,
    }
}

fn is_same_access(one: Access, other: Access) -> bool
    ensures { IsTrue result → one ≡ other }
{
    match (one, other) {
        (Access::Look, Access::Look)
        | (Access::Up, Access::Up)
        | (Access::Down, Access::Down)
        | (Access::Lower, Access::Lower)
        | (Access::Lock, Access::Lock)
        | (Access::Signal, Access::Signal)
        | (Access::TakeSmi, Access::TakeSmi)
        | (Access::ClearSmi, Access::ClearSmi) => true,
        (Access::Put(one), Access::Put(other)) => one == other,
        (Access::Seek(one), Access::Seek(other)) => one == other,
        (Access::Raise(one), Access::Raise(other)) => one == other,
        (Access::Claim(one, new), Access::Claim(other, another)) => one == other && new == another,
        (Access::Await(one, new), Access::Await(other, another)) => one == other && new == another,
        _ => false,
    }
}

fn is_same_status(one: Status, other: Status) -> bool
    ensures { IsTrue result → one ≡ other }
{
    matches!(
        (one, other),
        (Status::Success, Status::Success)
            | (Status::InvalidParameter, Status::InvalidParameter)
            | (Status::Unsupported, Status::Unsupported)
            | (Status::NotReady, Status::NotReady)
            | (Status::OutOfResources, Status::OutOfResources)
            | (Status::AccessDenied, Status::AccessDenied)
            | (Status::NotFound, Status::NotFound)
            | (Status::Timeout, Status::Timeout)
            | (Status::Aborted, Status::Aborted)
            | (Status::InterruptPending, Status::InterruptPending)
            | (Status::SourcePending, Status::SourcePending)
            | (Status::SourceQuiesced, Status::SourceQuiesced)
    )
}

fn is_same_cause(one: StartRefusal, other: StartRefusal) -> bool
    ensures { IsTrue result → one ≡ other }
{
    matches!(
        (one, other),
        (StartRefusal::OutOfRange, StartRefusal::OutOfRange)
            | (StartRefusal::BootProcessor, StartRefusal::BootProcessor)
            | (
                StartRefusal::UnknownProcedure,
                StartRefusal::UnknownProcedure
            )
            | (StartRefusal::Tokens, StartRefusal::Tokens)
            | (StartRefusal::Busy, StartRefusal::Busy)
            | (StartRefusal::Absent, StartRefusal::Absent)
    )
}

fn is_same_kind(one: HandlerType, other: HandlerType) -> bool
    ensures { IsTrue result → one ≡ other }
{
    match (one, other) {
        (HandlerType::Root, HandlerType::Root) => true,
        (HandlerType::Typed(one), HandlerType::Typed(other)) => one == other,
        _ => false,
    }
}

fn is_same_way(one: After, other: After) -> bool
    ensures { IsTrue result → one ≡ other }
{
    matches!(
        (one, other),
        (After::Halt, After::Halt) | (After::Next, After::Next) | (After::Retry, After::Retry)
    )
}

#[tactic(auto, using(crate::proofs::Standing::same_register))]
fn is_same_register(one: Register, other: Register) -> bool
    ensures { IsTrue result → one ≡ other }
{
    register_laws();
    one.number() == other.number()
}

// A label of the way through a session.
fn is_same_step(one: &Label, other: &Label) -> bool
    ensures { IsTrue result → one.now ≡ other.now }
{
    match (one, other) {
        (Label::Enter, Label::Enter)
        | (Label::Turn, Label::Turn)
        | (Label::Arrive, Label::Arrive)
        | (Label::Late, Label::Late)
        | (Label::Elect, Label::Elect)
        | (Label::Quit, Label::Quit)
        | (Label::Report, Label::Report)
        | (Label::Depart, Label::Depart)
        | (Label::End, Label::End)
        | (Label::Off, Label::Off) => true,
        (Label::Excepted(one), Label::Excepted(other))
        | (Label::Wave(one), Label::Wave(other))
        | (Label::Served(one), Label::Served(other))
        | (Label::Gather(one), Label::Gather(other))
        | (Label::Ready(one), Label::Ready(other))
        | (Label::Expire(one), Label::Expire(other))
        | (Label::Close(one), Label::Close(other)) => *one == *other,
        (Label::Release(one), Label::Release(other)) => *one == *other,
        (Label::Resume(one), Label::Resume(other)) => is_same_way(*one, *other),
        _ => false,
    }
}

// A label of the walks over handlers.
fn is_same_walk(one: &Label, other: &Label) -> bool
    ensures { IsTrue result → one.now ≡ other.now }
{
    match (one, other) {
        (Label::Spent, Label::Spent) | (Label::Done, Label::Done) => true,
        (Label::Begin(one), Label::Begin(other)) => *one == *other,
        (Label::Manage(one), Label::Manage(other)) => is_same_kind(*one, *other),
        (Label::Deep(one), Label::Deep(other)) => is_same_kind(*one, *other),
        (Label::Call(one), Label::Call(other)) => *one == *other,
        (
            Label::Return { handler, status },
            Label::Return {
                handler: other,
                status: its,
            },
        ) => *handler == *other && is_same_status(*status, *its),
        (Label::Answer(one), Label::Answer(other)) => is_same_status(*one, *other),
        _ => is_same_step(one, other),
    }
}

// A label of a procedure that is started, run and waited for.
fn is_same_procedure(one: &Label, other: &Label) -> bool
    ensures { IsTrue result → one.now ≡ other.now }
{
    match (one, other) {
        (Label::Collect(one), Label::Collect(other)) => *one == *other,
        (
            Label::Refuse { cpu, cause },
            Label::Refuse {
                cpu: other,
                cause: its,
            },
        ) => *cpu == *other && is_same_cause(*cause, *its),
        (
            Label::Check { job, status },
            Label::Check {
                job: other,
                status: its,
            },
        ) => *job == *other && is_same_status(*status, *its),
        _ => is_same_walk(one, other),
    }
}

fn is_same_label(one: &Label, other: &Label) -> bool
    ensures { IsTrue result → one.now ≡ other.now }
{
    match (one, other) {
        (Label::Silent, Label::Silent) => true,
        (
            Label::Set { variable, value },
            Label::Set {
                variable: other,
                value: its,
            },
        ) => *variable == *other && *value == *its,
        (Label::Read { .. }, Label::Read { .. }) => is_same_read(one, other),
        (Label::Write { .. }, Label::Write { .. }) => is_same_read(one, other),
        (
            Label::Alloc {
                size,
                place,
                status,
            },
            Label::Alloc {
                size: other,
                place: its,
                status: another,
            },
        ) => *size == *other && *place == *its && is_same_status(*status, *another),
        (
            Label::Free { place, status },
            Label::Free {
                place: other,
                status: its,
            },
        ) => *place == *other && is_same_status(*status, *its),
        (
            Label::Register {
                handler,
                serial,
                status,
            },
            Label::Register {
                handler: other,
                serial: its,
                status: another,
            },
        ) => *handler == *other && *serial == *its && is_same_status(*status, *another),
        (
            Label::Unregister { handle, status },
            Label::Unregister {
                handle: other,
                status: its,
            },
        ) => *handle == *other && is_same_status(*status, *its),
        _ => is_same_procedure(one, other),
    }
}

// A label of a register that was read or written.
fn is_same_read(one: &Label, other: &Label) -> bool
    ensures { IsTrue result → one.now ≡ other.now }
{
    match (one, other) {
        (
            Label::Read {
                cpu,
                register,
                width,
                value,
                status,
            },
            Label::Read {
                cpu: other,
                register: another,
                width: wide,
                value: its,
                status: answer,
            },
        )
        | (
            Label::Write {
                cpu,
                register,
                width,
                value,
                status,
            },
            Label::Write {
                cpu: other,
                register: another,
                width: wide,
                value: its,
                status: answer,
            },
        ) => {
            *cpu == *other
                && *width == *wide
                && *value == *its
                && is_same_register(*register, *another)
                && is_same_status(*status, *answer)
        }
        _ => false,
    }
}

// Labels with jobs that open alike.
fn opens_label_as(one: &Label, other: &Label) -> bool
    ensures { IsTrue result → label_opening one.now ≡ label_opening other.now }
{
    match (one, other) {
        (Label::Start { cpu, .. }, Label::Start { cpu: other, .. }) => *cpu == *other,
        (Label::Run { .. }, Label::Run { .. }) | (Label::Wait { .. }, Label::Wait { .. }) => true,
        _ => false,
    }
}

// Do the same actors the same thing to the same word, and find the same number?
fn does_the_same(one: &Event, other: &Event) -> bool
    ensures actor { IsTrue result → one.now.actor ≡ other.now.actor }
    ensures word { IsTrue result → one.now.word ≡ other.now.word }
    ensures access { IsTrue result → one.now.access ≡ other.now.access }
    ensures found { IsTrue result → one.now.found ≡ other.now.found }
{
    one.actor == other.actor
        && one.found == other.found
        && is_same_word(one.word, other.word)
        && is_same_access(one.access, other.access)
}

/// Have the lines of these events, each with a job, the same opening?
pub fn opens_as(one: &Event, other: &Event) -> bool
    ensures { IsTrue result → OpensAs one.now other.now }
{
    does_the_same(one, other) && opens_label_as(&one.label, &other.label)
}

/// Are they the same event? Of two labels with the number of a job it may say that they differ, since none comes again in its session.
pub fn is_same(one: &Event, other: &Event) -> bool
    ensures { IsTrue result → one.now ≡ other.now }
{
    does_the_same(one, other) && is_same_label(&one.label, &other.label)
}
