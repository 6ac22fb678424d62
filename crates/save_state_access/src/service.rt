ghost use Rattle.std.specs.Prelude.{◌≡◌, ◌≢◌, ◌≤◌, if◌then◌else◌, length, IfSome, is_none, option_map, unwrap_or};
ghost use Rattle.smm_base.specs.declared.status.Status.TheVariants.{Success, NotFound};
ghost use Rattle.save_state_map.specs.Fields.{field_place};
ghost use Rattle.save_state_access.specs.declared.table.Parts.TheVariants.{One};
ghost use Rattle.save_state_access.specs.Writing.{is_written, starts_halt, with_low_bytes, write_answer};
ghost use Rattle.save_state_access.specs.IoInfo.{io_told, io_bytes};
ghost use Rattle.save_state_access.specs.Reading.{field_bytes, register_bytes, register_at, lma_byte, read_answer};

use crate::io::{bytes_of, io_info, number};
use crate::table::{Parts, parts_numbered};
use byteorder::{ByteOrder, LittleEndian};
use save_state_map::{Field, Image};
use smm_base::{Register, Status};

/// Reads a register by its number into `out`, whose length is the width. `id` is the processor's id, and
/// `present` says whether its image may be looked at. The first of these cases answers:
///
/// - a width of 0: `InvalidParameter`;
/// - PROCESSOR_ID: `NotFound` where the processor isn't present, `InvalidParameter` at a width other than 8, else the id;
/// - a processor that isn't present: `InvalidParameter`;
/// - LMA: `InvalidParameter` at a width other than 1, else 64 where bit 10 of IA32_EFER is 1, and 32;
/// - IO: `InvalidParameter` at a width other than 24, `NotFound` where [`io_info`] tells nothing, else 24 bytes: the value in 8, the
///   port in 2, two zeros, the width in 4, the kind in 4, four zeros;
/// - a register that the map hasn't: `NotFound`;
/// - a width above the register's: `InvalidParameter`;
/// - else `Success`, and the low bytes of the register.
///
/// Where the status isn't `Success`, `out` stays. The numbers are those of UEFI PI Volume 4; the order of the cases is
/// this project's own.
pub fn read_register(image: &Image, present: bool, id: u64, reg: u32, out: &mut [u8]) -> Status
    ensures status { result ≡ (read_answer image.now present id reg out.old).status }
    ensures out { out.new ≡ (read_answer image.now present id reg out.old).out }
    ensures refused { result ≢ Success → out.new ≡ out.old }
{
    let width = out.len();
    if width == 0 {
        return Status::InvalidParameter;
    }
    if reg == Register::ProcessorId.number() {
        if !present {
            return Status::NotFound;
        }
        if width != 8 {
            return Status::InvalidParameter;
        }
        out.copy_from_slice(&id.to_le_bytes());
        return Status::Success;
    }
    if !present {
        return Status::InvalidParameter;
    }
    if reg == Register::Lma.number() {
        if width != 1 {
            return Status::InvalidParameter;
        }
        out.copy_from_slice(&[lma_of(image)]);
        return Status::Success;
    }
    if reg == Register::Io.number() {
        if width != 24 {
            return Status::InvalidParameter;
        }
        return give_io(image, out);
    }
    let Some(register) = register_of(image, reg) else {
        return Status::NotFound;
    };
    if width > register.0 {
        return Status::InvalidParameter;
    }
    let bytes = register.1;
    out.copy_from_slice(&bytes[..width]);
    Status::Success
}

/// Writes the low bytes of a register by its number, as many as `bytes` has. `present` says whether the processor's
/// image may be written. The first of these cases answers:
///
/// - no bytes: `InvalidParameter`;
/// - PROCESSOR_ID: `Success`, without a change;
/// - a processor that isn't present: `InvalidParameter`;
/// - LMA: `Success`, without a change;
/// - IO, or a register that the map hasn't: `NotFound`;
/// - a register that no handler may write: `Unsupported`;
/// - more bytes than the register has: `InvalidParameter`;
/// - AUTO_HALT, where bit 0 would turn from 0 to 1: `Unsupported`;
/// - else `Success`, and only those bytes change.
///
/// Where the status isn't `Success`, the image stays. The order of the cases is this project's own.
pub fn write_register(image: &mut Image, present: bool, reg: u32, bytes: &[u8]) -> Status
    ensures status { result ≡ (write_answer image.old present reg bytes.now).status }
    ensures image { image.new ≡ (write_answer image.old present reg bytes.now).image }
    ensures refused { result ≢ Success → image.new ≡ image.old }
{
    let width = bytes.len();
    if width == 0 {
        return Status::InvalidParameter;
    }
    if reg == Register::ProcessorId.number() {
        return Status::Success;
    }
    if !present {
        return Status::InvalidParameter;
    }
    if reg == Register::Lma.number() {
        return Status::Success;
    }
    if reg == Register::Io.number() {
        return Status::NotFound;
    }
    let Some(register) = register_of(image, reg) else {
        return Status::NotFound;
    };
    let parts = parts_numbered(reg);
    if !can_write(parts) {
        return Status::Unsupported;
    }
    if width > register.0 {
        return Status::InvalidParameter;
    }
    if reg == Register::AutoHalt.number() && would_halt(image, bytes) {
        return Status::Unsupported;
    }
    put_low_bytes(image, parts, bytes);
    Status::Success
}

// Gives the answer of IO, if the image tells of an I/O instruction.
fn give_io(image: &Image, out: &mut [u8]) -> Status
    requires { length out.old ≡ 24 }
    ensures status { result ≡ (if is_none (io_told image.now) then NotFound else Success) }
    ensures out { out.new ≡ unwrap_or (option_map io_bytes (io_told image.now)) out.old }
{
    let Some(io) = io_info(image) else {
        return Status::NotFound;
    };
    out.copy_from_slice(&bytes_of(&io));
    Status::Success
}

fn lma_of(image: &Image) -> u8
    ensures { result ≡ lma_byte image.now }
{
    if (number(image, Field::Efer) >> 10) % 2 == 1 {
        64
    } else {
        32
    }
}

// The width of a field, and its number low byte first.
fn field_of(image: &Image, field: Field) -> Option<(usize, [u8; 8])>
    ensures bytes { result ≡ field_bytes image.now field }
    ensures width { IfSome result (λ found. found.0 ≤ 8) }
{
    let place = field.place(image.kind())?;
    let number = image.field(field)?;
    Some((place.width, number.to_le_bytes()))
}

// The width of the register with a number, and its bytes low byte first.
pub(crate) fn register_of(image: &Image, reg: u32) -> Option<(usize, [u8; 8])>
    ensures bytes { result ≡ register_at image.now reg }
    ensures width { IfSome result (λ found. found.0 ≤ 8) }
{
    match parts_numbered(reg) {
        Parts::Missing => None,
        Parts::One(field) => field_of(image, field),
        Parts::Pair(low, high) => {
            let (_, low) = field_of(image, low)?;
            let (_, high) = field_of(image, high)?;
            Some((
                8,
                [
                    low[0], low[1], low[2], low[3], high[0], high[1], high[2], high[3],
                ],
            ))
        }
    }
}

// Whether a handler may write the register that is made of these fields.
fn can_write(parts: Parts) -> bool
    ensures { result ≡ is_written parts }
{
    match parts {
        Parts::One(field) => field.is_writable(),
        _ => false,
    }
}

// Whether a write of these bytes to Auto HALT turns bit 0 from 0 to 1.
fn would_halt(image: &Image, bytes: &[u8]) -> bool
    ensures { result ≡ starts_halt image.now bytes.now }
{
    match bytes {
        [first, ..] => number(image, Field::AutoHalt) % 2 == 0 && *first % 2 == 1,
        [] => false,
    }
}

fn put_low_bytes(image: &mut Image, parts: Parts, bytes: &[u8])
    requires { IfSome (register_bytes image.old parts) (λ register. length bytes.now ≤ register.0) }
    ensures { image.new ≡ with_low_bytes image.old parts bytes.now }
{
    if let Parts::One(field) = parts {
        put_in_field(image, field, bytes);
    }
}

fn put_in_field(image: &mut Image, field: Field, bytes: &[u8])
    requires { IfSome (field_place image.old.kind field) (λ place. length bytes.now ≤ place.width) }
    ensures { image.new ≡ with_low_bytes image.old (One field) bytes.now }
{
    let Some(place) = field.place(image.kind()) else {
        return;
    };
    let Some(number) = image.field(field) else {
        return;
    };
    let mut own = number.to_le_bytes();
    own[..bytes.len()].copy_from_slice(bytes);
    let _taken = image.set_field(field, LittleEndian::read_uint(&own, place.width));
}
