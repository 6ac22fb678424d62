ghost use Rattle.std.specs.Prelude.{◌≡◌, ℕ, List, Option, Some};
ghost use Rattle.std.specs.Option.{option_map};
ghost use Rattle.platform_document.specs.Words.{map_of, policy_of, mode_of, arrival_of, answer_of, guid_of, kind_of, start_list_of, act_of, operation_word};

use cpu_table::{Act, Arrival, Mode};
use smm_base::{HandlerType, MapKind, Status};
use uuid::Uuid;

/// What a word of a platform file may stand for.
pub trait Word: Sized {
    /// What a text stands for, if it is one of the words.
    ghost meaning: { List ℕ → Option Self };

    fn of(text: &str) -> Option<Self>
        ensures { result ≡ meaning text.now };
}

/// The words of the key `policy`.
#[derive(Clone, Copy)]
pub enum PolicyWord {
    Elected,
    Fixed,
}

/// The words of the key `op`.
#[derive(Clone, Copy)]
pub enum OperationWord {
    Set,
    Read,
    Write,
    Start,
    Launch,
    Check,
    Wait,
    Alloc,
    Free,
    Register,
    Unregister,
    Manage,
}

impl Word for MapKind {
    ghost meaning = { map_of };

    fn of(text: &str) -> Option<Self> {
        match text {
            "ia32" => Some(MapKind::Ia32),
            "intel64" => Some(MapKind::Intel64),
            _ => None,
        }
    }
}

impl Word for PolicyWord {
    ghost meaning = { policy_of };

    fn of(text: &str) -> Option<Self> {
        match text {
            "elected" => Some(PolicyWord::Elected),
            "fixed" => Some(PolicyWord::Fixed),
            _ => None,
        }
    }
}

impl Word for Mode {
    ghost meaning = { mode_of };

    fn of(text: &str) -> Option<Self> {
        match text {
            "traditional" => Some(Mode::Traditional),
            "relaxed" => Some(Mode::Relaxed),
            _ => None,
        }
    }
}

impl Word for Arrival {
    ghost meaning = { arrival_of };

    fn of(text: &str) -> Option<Self> {
        match text {
            "prompt" => Some(Arrival::Prompt),
            "delayed" => Some(Arrival::Delayed),
            "blocked" => Some(Arrival::Blocked),
            "absent" => Some(Arrival::Absent),
            _ => None,
        }
    }
}

/// A status that a handler may answer with.
impl Word for Status {
    ghost meaning = { answer_of };

    fn of(text: &str) -> Option<Self> {
        match text {
            "SUCCESS" => Some(Status::Success),
            "INTERRUPT_PENDING" => Some(Status::InterruptPending),
            "SOURCE_PENDING" => Some(Status::SourcePending),
            "SOURCE_QUIESCED" => Some(Status::SourceQuiesced),
            _ => None,
        }
    }
}

impl Word for Act {
    ghost meaning = { act_of };

    fn of(text: &str) -> Option<Self> {
        match text {
            "get" => Some(Act::Get),
            "put" => Some(Act::Put),
            _ => None,
        }
    }
}

impl Word for OperationWord {
    ghost meaning = { operation_word };

    fn of(text: &str) -> Option<Self> {
        match text {
            "set" => Some(OperationWord::Set),
            "read" => Some(OperationWord::Read),
            "write" => Some(OperationWord::Write),
            "start" => Some(OperationWord::Start),
            "launch" => Some(OperationWord::Launch),
            "check" => Some(OperationWord::Check),
            "wait" => Some(OperationWord::Wait),
            "alloc" => Some(OperationWord::Alloc),
            "free" => Some(OperationWord::Free),
            "register" => Some(OperationWord::Register),
            "unregister" => Some(OperationWord::Unregister),
            "manage" => Some(OperationWord::Manage),
            _ => None,
        }
    }
}

// The list of a GUID, in one of the forms that `uuid` reads.
fn guid_list(text: &str) -> Option<HandlerType>
    ensures { result ≡ guid_of text.now }
{
    match Uuid::try_parse(text) {
        Ok(guid) => Some(HandlerType::Typed(guid.as_u128())),
        Err(_) => None,
    }
}

/// The root list, or the list of a GUID.
impl Word for HandlerType {
    ghost meaning = { kind_of };

    fn of(text: &str) -> Option<Self> {
        match text {
            "root" => Some(HandlerType::Root),
            _ => guid_list(text),
        }
    }
}

// The root list, or the list of a GUID, as one that a handler is registered on.
fn named_list(text: &str) -> Option<Option<HandlerType>>
    ensures { result ≡ option_map Some (kind_of text.now) }
{
    match HandlerType::of(text) {
        Some(kind) => Some(Some(kind)),
        None => None,
    }
}

/// The list that a handler is registered on at the start, or `none`.
impl Word for Option<HandlerType> {
    ghost meaning = { start_list_of };

    fn of(text: &str) -> Option<Self> {
        match text {
            "none" => Some(None),
            _ => named_list(text),
        }
    }
}
