ghost use Rattle.std.specs.Prelude.{◌≡◌};
ghost use Rattle.cpu_regs.specs.Registers.{IsRegisters, is_event_field, is_kept, number_of, register_of, kept_number, loaded};

use save_state_map::{FIELDS, Field, Image};
use smm_base::MapKind;
use std::marker::Model;

/// The registers of a processor: a number for each field of its save-state map but Auto HALT, I/O
/// restart, I/O state and I/O memory address.
#[derive(Clone, Copy, PartialEq, Eq)]
pub struct Regs {
    kind: MapKind,
    numbers: [u64; 44],
}

impl Model for Regs {
    ghost use Rattle.cpu_regs.specs.Registers.{Registers, IsRegisters};

    ghost Value = { Registers };

    ghost view = { λ a. record { kind = a.kind; numbers = a.numbers } };

    ghost invariant = { λ a. IsRegisters (record { kind = a.kind; numbers = a.numbers }) };

    ghost inverse = { λ v. record { kind = v.kind; numbers = v.numbers } };
}

impl Regs {
    /// Every field of the image but Auto HALT, I/O restart, I/O state and I/O memory address.
    pub fn of(image: &Image) -> Regs
        ensures { result ≡ loaded image.now }
    {
        let mut numbers = [0; 44];
        for (i, field) in FIELDS.iter().enumerate() {
            numbers[i] = kept_number_of(image, *field);
        }
        Regs {
            kind: image.kind(),
            numbers,
        }
    }

    /// The map whose fields are kept.
    pub fn kind(&self) -> MapKind
        ensures kind { result ≡ self.now.kind }
        ensures registers { IsRegisters self.now }
    {
        self.kind
    }

    /// The number of a field: `None` exactly where the map hasn't the field or registers leave it out.
    pub fn get(&self, field: Field) -> Option<u64>
        ensures { result ≡ register_of self.now field }
    {
        if is_kept_field(self.kind, field) {
            Some(self.number(field))
        } else {
            None
        }
    }

    // The number that stands for a field, kept or not.
    pub(crate) fn number(&self, field: Field) -> u64
        ensures { result ≡ number_of self.now field }
    {
        self.numbers[field.index()]
    }
}

// Whether a field tells of an interrupt, and is no register.
pub(crate) fn is_event(field: Field) -> bool
    ensures { result ≡ is_event_field field }
{
    matches!(
        field,
        Field::AutoHalt | Field::IoRestart | Field::IoState | Field::IoMemoryAddress
    )
}

// Whether the registers of a map keep a field.
fn is_kept_field(kind: MapKind, field: Field) -> bool
    ensures { result ≡ is_kept kind field }
{
    field.place(kind).is_some() && !is_event(field)
}

// What an image holds for a field of the registers.
fn kept_number_of(image: &Image, field: Field) -> u64
    ensures { result ≡ kept_number image.now field }
{
    if is_kept_field(image.kind(), field) {
        image.field(field).unwrap_or(0)
    } else {
        0
    }
}
