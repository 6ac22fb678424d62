use crate::items::Items;
use crate::text::Text;
use smm_base::{HandlerType, Status};

/// What an operation is given: a number of the file, or one of the session's eight variables.
#[derive(Clone, Copy, Debug, PartialEq, Eq)]
pub enum Operand {
    Number(u64),
    /// The variable's number, 0 to 7.
    Variable(u8),
}

/// One operation of a handler. `into` is the number, 0 to 7, of the variable that takes the answer;
/// `cpu` is a processor's number, which may be one that the platform has not; `reg` is a
/// register's number in the save-state service (UEFI PI Volume 4); `width` is in bytes, 0 to 24.
#[derive(Clone, Drop)]
pub enum OpDef {
    Set {
        into: u8,
        value: Operand,
    },
    Read {
        cpu: u16,
        reg: u32,
        width: u8,
        into: u8,
    },
    Write {
        cpu: u16,
        reg: u32,
        width: u8,
        value: Operand,
    },
    /// Runs a procedure on a processor and waits for it.
    Start {
        cpu: u16,
        procedure: Text,
        arg: Operand,
        into: u8,
    },
    /// Runs a procedure on a processor and does not wait for it.
    Launch {
        cpu: u16,
        procedure: Text,
        arg: Operand,
        into: u8,
    },
    Check {
        token: Operand,
    },
    Wait {
        token: Operand,
        into: u8,
    },
    Alloc {
        size: Operand,
        into: u8,
    },
    Free {
        place: Operand,
    },
    /// Registers the handler at this place in the file.
    Register {
        handler: u16,
        kind: HandlerType,
        into: u8,
    },
    Unregister {
        handle: Operand,
    },
    Manage {
        kind: HandlerType,
    },
}

/// A handler of the file.
#[derive(Clone, Drop)]
pub struct HandlerDef {
    /// 1 to 32 bytes, and no other handler's.
    pub name: Text,
    /// The list on which it is registered at the start, or None for one that is not.
    pub kind: Option<HandlerType>,
    pub answer: Status,
    /// What it does, in this order; at most 64.
    pub ops: Items<OpDef>,
}

/// What a procedure does with its register.
#[derive(Clone, Copy, Debug, PartialEq, Eq)]
pub enum Act {
    Get,
    Put,
}

/// A procedure that an operation may run on another processor.
#[derive(Clone, Drop)]
pub struct ProcedureDef {
    /// 1 to 32 bytes, and no other procedure's.
    pub name: Text,
    pub act: Act,
    /// The register's number in the save-state service.
    pub reg: u32,
}
