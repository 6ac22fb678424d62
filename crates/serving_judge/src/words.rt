ghost use Rattle.std.specs.Prelude.{◌≡◌, ◌↔◌, IsTrue};
ghost use Rattle.handler_registry.specs.Registrations.{is_same_list};
ghost use Rattle.serving_place.specs.Operations.{register_of};
ghost use Rattle.serving_judge.specs.Words.{is_status, is_register, is_spent, is_begin, is_manage, is_deep, is_call, is_return, is_answer, is_collect, is_label};

use smm_base::{HandlerType, Register, Status};
use sync_words::Label;

fn same_status(expected: Status, status: Status) -> bool
    ensures { IsTrue result ↔ (status ≡ expected) }
{
    status == expected
}

pub fn is_status(expected: Status, status: Status) -> bool
    ensures { result ≡ is_status expected status }
{
    same_status(expected, status)
}

pub fn is_register(expected: Register, register: Register) -> bool
    ensures { result ≡ is_register expected register }
{
    register.number() == expected.number()
}

/// The register with a number of the platform.
pub fn register_of(number: u32) -> Register
    ensures { result ≡ register_of number }
{
    Register::numbered(number).unwrap_or(Register::Rax)
}

fn is_same_list(a: HandlerType, b: HandlerType) -> bool
    ensures { result ≡ is_same_list a b }
{
    match (a, b) {
        (HandlerType::Root, HandlerType::Root) => true,
        (HandlerType::Root, HandlerType::Typed(_)) => false,
        (HandlerType::Typed(_), HandlerType::Root) => false,
        (HandlerType::Typed(first), HandlerType::Typed(second)) => first == second,
    }
}

fn is_begin(wave: u32, label: Label) -> bool
    ensures { result ≡ is_begin wave label }
{
    match label {
        Label::Begin(other) => other == wave,
        _ => false,
    }
}

pub fn is_manage(kind: HandlerType, label: Label) -> bool
    ensures { result ≡ is_manage kind label }
{
    match label {
        Label::Manage(other) => is_same_list(other, kind),
        _ => false,
    }
}

pub fn is_deep(kind: HandlerType, label: Label) -> bool
    ensures { result ≡ is_deep kind label }
{
    match label {
        Label::Deep(other) => is_same_list(other, kind),
        _ => false,
    }
}

fn is_call(handler: u16, label: Label) -> bool
    ensures { result ≡ is_call handler label }
{
    match label {
        Label::Call(other) => other == handler,
        _ => false,
    }
}

fn is_return(handler: u16, expected: Status, label: Label) -> bool
    ensures { result ≡ is_return handler expected label }
{
    match label {
        Label::Return {
            handler: other,
            status,
        } => other == handler && is_status(expected, status),
        _ => false,
    }
}

fn is_answer(expected: Status, label: Label) -> bool
    ensures { result ≡ is_answer expected label }
{
    match label {
        Label::Answer(status) => is_status(expected, status),
        _ => false,
    }
}

pub fn is_collect(cpu: u16, label: Label) -> bool
    ensures { result ≡ is_collect cpu label }
{
    match label {
        Label::Collect(other) => other == cpu,
        _ => false,
    }
}

fn is_spent(label: Label) -> bool
    ensures { result ≡ is_spent label }
{
    matches!(label, Label::Spent)
}

/// The label is this one, of those that are due by themselves.
pub fn is_label(due: Label, label: Label) -> bool
    ensures { result ≡ is_label due label }
{
    match due {
        Label::Spent => is_spent(label),
        Label::Begin(wave) => is_begin(wave, label),
        Label::Manage(kind) => is_manage(kind, label),
        Label::Call(handler) => is_call(handler, label),
        Label::Return { handler, status } => is_return(handler, status, label),
        Label::Answer(status) => is_answer(status, label),
        _ => false,
    }
}
