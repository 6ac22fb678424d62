ghost use Rattle.std.specs.Prelude.{◌≡◌, ◌≤◌, IfSome};
ghost use Rattle.save_state_access.specs.Table.{parts_of, parts_numbered};
ghost use Rattle.save_state_access.specs.Width.{parts_width, own_width};

use save_state_map::Field;
use smm_base::{MapKind, Register};

/// The fields of an image that a register is made of.
#[derive(Clone, Copy, PartialEq, Eq)]
pub enum Parts {
    /// No field of either map.
    Missing,
    /// One field, in each map that has it.
    One(Field),
    /// Two fields of four bytes: the low half, and the high half.
    Pair(Field, Field),
}

/// The fields that a register is made of. The table is this project's own.
pub fn parts_of(register: Register) -> Parts
    ensures { result ≡ parts_of register }
{
    match register {
        Register::GdtBase => Parts::Pair(Field::GdtBaseLow, Field::GdtBaseHigh),
        Register::IdtBase => Parts::Pair(Field::IdtBaseLow, Field::IdtBaseHigh),
        Register::LdtBase => Parts::Pair(Field::LdtBaseLow, Field::LdtBaseHigh),
        Register::GdtLimit => Parts::Missing,
        Register::IdtLimit => Parts::Missing,
        Register::LdtLimit => Parts::Missing,
        Register::LdtInfo => Parts::Missing,
        Register::Es => Parts::One(Field::Es),
        Register::Cs => Parts::One(Field::Cs),
        Register::Ss => Parts::One(Field::Ss),
        Register::Ds => Parts::One(Field::Ds),
        Register::Fs => Parts::One(Field::Fs),
        Register::Gs => Parts::One(Field::Gs),
        Register::LdtrSel => Parts::One(Field::Ldtr),
        Register::TrSel => Parts::One(Field::Tr),
        Register::Dr7 => Parts::One(Field::Dr7),
        Register::Dr6 => Parts::One(Field::Dr6),
        Register::R8 => Parts::One(Field::R8),
        Register::R9 => Parts::One(Field::R9),
        Register::R10 => Parts::One(Field::R10),
        Register::R11 => Parts::One(Field::R11),
        Register::R12 => Parts::One(Field::R12),
        Register::R13 => Parts::One(Field::R13),
        Register::R14 => Parts::One(Field::R14),
        Register::R15 => Parts::One(Field::R15),
        Register::Rax => Parts::One(Field::Rax),
        Register::Rbx => Parts::One(Field::Rbx),
        Register::Rcx => Parts::One(Field::Rcx),
        Register::Rdx => Parts::One(Field::Rdx),
        Register::Rsp => Parts::One(Field::Rsp),
        Register::Rbp => Parts::One(Field::Rbp),
        Register::Rsi => Parts::One(Field::Rsi),
        Register::Rdi => Parts::One(Field::Rdi),
        Register::Rip => Parts::One(Field::Rip),
        Register::Rflags => Parts::One(Field::Rflags),
        Register::Cr0 => Parts::One(Field::Cr0),
        Register::Cr3 => Parts::One(Field::Cr3),
        Register::Cr4 => Parts::One(Field::Cr4),
        Register::Io => Parts::Missing,
        Register::Lma => Parts::Missing,
        Register::ProcessorId => Parts::Missing,
        Register::AutoHalt => Parts::One(Field::AutoHalt),
        Register::IoRestart => Parts::One(Field::IoRestart),
    }
}

// The fields of the register with a number: none where no register has it.
pub(crate) fn parts_numbered(number: u32) -> Parts
    ensures { result ≡ parts_numbered number }
{
    match Register::numbered(number) {
        Some(register) => parts_of(register),
        None => Parts::Missing,
    }
}

/// A register's own width in bytes: 24 for IO, 1 for LMA, 8 for PROCESSOR_ID, else the width that the
/// map gives it, and 8 where the map hasn't it.
pub fn own_width(kind: MapKind, reg: u32) -> usize
    ensures width { result ≡ own_width kind reg }
    ensures some { 1 ≤ result }
    ensures most { result ≤ 24 }
{
    if reg == Register::Io.number() {
        return 24;
    }
    if reg == Register::Lma.number() {
        return 1;
    }
    if reg == Register::ProcessorId.number() {
        return 8;
    }
    width_of(kind, parts_numbered(reg)).unwrap_or(8)
}

// The width of the fields that a register is made of.
fn width_of(kind: MapKind, parts: Parts) -> Option<usize>
    ensures width { result ≡ parts_width kind parts }
    ensures some { IfSome result (λ width. 1 ≤ width) }
    ensures most { IfSome result (λ width. width ≤ 8) }
{
    match parts {
        Parts::Missing => None,
        Parts::One(field) => Some(field.place(kind)?.width),
        Parts::Pair(low, high) => {
            if low.place(kind).is_some() && high.place(kind).is_some() {
                Some(8)
            } else {
                None
            }
        }
    }
}
