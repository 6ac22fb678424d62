ghost use Rattle.std.specs.Prelude.{◌≡◌, ◌&&◌, ℕ, List, IsTrue, Some, IfSome};
ghost use Rattle.smm_base.specs.Kinds.{is_io_length, is_io_type, type_text, after_text, after_named};
ghost use Rattle.smm_base.specs.declared.kinds.After.{After as AfterSpec};

use std::fmt;
use uuid::Uuid;

/// The save-state map of a processor (Intel SDM Volume 3, System Management Mode, "SMRAM State Save Map").
#[derive(Clone, Copy, Debug, PartialEq, Eq)]
pub enum MapKind {
    /// The 32-bit map: 512 bytes from SMBASE + 7E00H.
    Ia32,
    /// The map of Intel 64: 1,024 bytes from SMBASE + 7C00H.
    Intel64,
}

/// How a resumed processor goes on. This is the project's own summary of what RSM does (Intel SDM Volume 3,
/// "Auto HALT Restart" and "I/O Instruction Restart").
#[derive(Clone, Copy, Debug, PartialEq, Eq)]
pub enum After {
    /// It executes HLT again (Auto HALT restart).
    Halt,
    /// It goes on behind the instruction that the interrupt came after.
    Next,
    /// It executes the interrupted I/O instruction again (I/O instruction restart).
    Retry,
}

/// Each way to go on once.
pub static WAYS_ON: [After; 3] = [After::Halt, After::Next, After::Retry];

impl After {
    /// The printed name.
    pub fn name(self) -> &'static str
        ensures { result.now ≡ after_text self }
    {
        match self {
            After::Halt => "halt",
            After::Next => "next",
            After::Retry => "retry",
        }
    }

    /// The way to go on with this printed name, where there is one.
    pub fn named(text: &str) -> Option<After>
        ensures { result ≡ after_named text.now }
    {
        WAYS_ON.iter().copied().find(|after| after.name() == text)
    }
}

/// Writes `halt`, `next` or `retry`.
impl fmt::Display for After {
    ghost output = { λ after. Some (after_text after) };

    fn fmt<W: fmt::Write>(&self, f: &mut fmt::Formatter<W>) -> fmt::Result {
        f.write_str(self.name())
    }
}

/// The laws of the names of the ways to go on. It does nothing when it runs.
pub fn after_laws()
    // What is found has the name.
    ensures named { (text : List ℕ) → IfSome (after_named text) (λ after. after_text after ≡ text) }

    // Each way is found by its name, so no name stands for two of them.
    ensures names { (after : AfterSpec) → after_named (after_text after) ≡ Some after }
{}

/// Which list a handler is registered on and a walk goes over: the root list, or that of one GUID.
#[derive(Clone, Copy, Debug, PartialEq, Eq)]
pub enum HandlerType {
    /// The root list: handlers that were registered with no GUID (UEFI PI Volume 4, `MmiHandlerRegister`).
    Root,
    /// The GUID's 128 bits in the order of its text, the first digit highest.
    Typed(u128),
}

/// Writes `root`, or the GUID in lower case with hyphens.
impl fmt::Display for HandlerType {
    ghost output = { λ kind. Some (type_text kind) };

    fn fmt<W: fmt::Write>(&self, f: &mut fmt::Formatter<W>) -> fmt::Result {
        match self {
            HandlerType::Root => f.write_str("root"),
            HandlerType::Typed(guid) => Uuid::from_u128(*guid).fmt(f),
        }
    }
}

/// Who may become the boot processor of a session.
#[derive(Clone, Copy, Debug, PartialEq, Eq)]
pub enum Policy {
    /// The first processor that claims the chair.
    Elected,
    /// The processor with this number, below the number of processors.
    Fixed(u16),
}

/// The I/O instruction that an interrupt came at.
#[derive(Clone, Copy, Debug, PartialEq, Eq)]
pub struct IoCause {
    pub port: u16,
    /// The operand's size in bytes: 1, 2 or 4.
    pub length: u8,
    /// The type of the I/O state field (Intel SDM Volume 3, "SMM I/O State"): 0 OUT DX, 1 IN DX, 2 OUTS,
    /// 3 INS, 6 REP OUTS, 7 REP INS, 8 OUT immediate, 9 IN immediate.
    pub kind: u8,
    ghost length_is_valid: { IsTrue (is_io_length length) },
    ghost kind_is_valid: { IsTrue (is_io_type kind) },
}

/// What a processor did when the interrupt came.
#[derive(Clone, Copy, Debug, PartialEq, Eq)]
pub struct Cause {
    /// It was in the HLT state.
    pub halt: bool,
    /// The I/O instruction that it came at, if it came at one.
    pub io: Option<IoCause>,
}
