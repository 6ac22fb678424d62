ghost use Rattle.std.specs.Prelude.{◌≡◌, ◌<◌, ◌^◌, ℕ, slice_index, Option, Some, option_map, unwrap_or};
ghost use Rattle.save_state_map.specs.declared.field.Field.{Field};
ghost use Rattle.save_state_map.specs.declared.field.Place.{Place};
ghost use Rattle.save_state_map.specs.Fields.{field_place};
ghost use Rattle.save_state_map.specs.Images.{field_of, with_field};
ghost use Rattle.cpu_regs.specs.Registers.{loaded};
ghost use Rattle.cpu_regs.specs.Entering.{io_state, event_number, entered, saved, IsOfNoField, is_set_in, is_restart, after};

use crate::regs::{Regs, is_event};
use save_state_map::{FIELDS, Field, Image};
use smm_base::{After, Cause, IoCause};

/// What a processor does to its image when the interrupt comes: every field of the map is replaced, the registers' fields
/// from `regs`, Auto HALT by 1 where the cause says so and else by 0, the I/O state by the I/O instruction of the
/// cause or by 0, and I/O restart and the I/O memory address by 0. Bytes of no field stay.
pub fn enter(regs: &Regs, cause: &Cause, image: &mut Image)
    requires { regs.now.kind ≡ image.old.kind }
    ensures saved { image.new ≡ saved regs.now cause.now image.old }
    ensures each_field { (field : Field) → field_of image.new field ≡ option_map (λ _. entered regs.now cause.now field) (field_place image.old.kind field) }
    ensures other_bytes_stay { (at : ℕ) → IsOfNoField image.old.kind at → slice_index image.new.bytes at ≡ slice_index image.old.bytes at }
{
    let same_kind = regs.kind() == image.kind();
    prove!(same_kind);
    let state = io_state_of(cause.io);
    for field in FIELDS.iter() {
        put(regs, cause, state, *field, image);
    }
}

/// What a processor does with its image when it resumes: it takes its registers from it, and goes on as the image says.
/// `Halt` exactly where bit 0 of Auto HALT is 1. Else `Retry` exactly where bit 16 of the revision
/// is 1, bit 0 of the I/O state is 1 and the I/O restart word is 00FFH. Else `Next`.
pub fn resume(image: &Image, regs: &mut Regs) -> After
    requires { regs.old.kind ≡ image.now.kind }
    ensures registers { regs.new ≡ loaded image.now }
    ensures after { result ≡ after image.now }
{
    *regs = Regs::of(image);
    if is_set(image, Field::AutoHalt, 0) {
        After::Halt
    } else if is_restarted(image) {
        After::Retry
    } else {
        After::Next
    }
}

// Puts what entering writes into a field, if the image's map has it.
fn put(regs: &Regs, cause: &Cause, state: u64, field: Field, image: &mut Image)
    requires state { state ≡ io_state cause.now.io }
    requires fits { (place : Place) → field_place image.old.kind field ≡ Some place → entered regs.now cause.now field < 256 ^ place.width }
    ensures { image.new ≡ with_field image.old field (entered regs.now cause.now field) }
{
    let number = entered_number(regs, cause, state, field);
    let _has_field = image.set_field(field, number);
}

// What entering writes into a field of the map.
fn entered_number(regs: &Regs, cause: &Cause, state: u64, field: Field) -> u64
    requires { state ≡ io_state cause.now.io }
    ensures { result ≡ entered regs.now cause.now field }
{
    if is_event(field) {
        event_number_of(cause, state, field)
    } else {
        regs.number(field)
    }
}

// What entering writes of the interrupt.
fn event_number_of(cause: &Cause, state: u64, field: Field) -> u64
    requires { state ≡ io_state cause.now.io }
    ensures { result ≡ event_number cause.now field }
{
    match field {
        Field::AutoHalt => u64::from(cause.halt),
        Field::IoState => state,
        _ => 0,
    }
}

fn io_state_of(io: Option<IoCause>) -> u64
    ensures state { result ≡ io_state io }
    ensures fits { result < 2 ^ 32 }
{
    match io {
        None => 0,
        Some(io) => 1
            + u64::from(io.length) * 2
            + u64::from(io.kind) * 16
            + u64::from(io.port) * 65536,
    }
}

// Whether a bit is 1 in a field.
fn is_set(image: &Image, field: Field, bit: u32) -> bool
    requires { bit < 64 }
    ensures { result ≡ is_set_in image.now field bit }
{
    (image.field(field).unwrap_or(0) >> bit) % 2 == 1
}

fn is_restarted(image: &Image) -> bool
    ensures { result ≡ is_restart image.now }
{
    is_set(image, Field::Revision, 16)
        && is_set(image, Field::IoState, 0)
        && image.field(Field::IoRestart).unwrap_or(0) == 0xFF
}
