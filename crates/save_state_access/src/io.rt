ghost use Rattle.std.specs.Prelude.{◌≡◌, ◌%◌, ◌^◌, IsTrue};
ghost use Rattle.smm_base.specs.Kinds.{is_io_length};
ghost use Rattle.save_state_access.specs.IoInfo.{number_in, width_code, io_told, io_bytes};

use save_state_map::{Field, Image};

/// The I/O instruction that an interrupt came at, as the register IO tells of it.
#[derive(Clone, Copy, PartialEq, Eq)]
pub struct IoInfo {
    /// The low bytes of RAX or EAX, as many as the instruction's length.
    pub value: u64,
    pub port: u16,
    /// The length: 0 for one byte, 1 for two, 2 for four.
    pub width: u32,
    /// The direction: 1 for input, 2 for output.
    pub kind: u32,
}

/// What the image tells of an I/O instruction: something exactly where the revision is at least 30004H, bit 0 of
/// the I/O state is 1, its length is 1, 2 or 4, and its type is 0, 1, 8 or 9.
pub fn io_info(image: &Image) -> Option<IoInfo>
    ensures { result ≡ io_told image.now }
{
    let state = number(image, Field::IoState);
    let length = state / 2 % 8;
    let kind = state / 16 % 16;
    if number(image, Field::Revision) < 0x30004 || state % 2 != 1 {
        return None;
    }
    if !matches!(length, 1 | 2 | 4) || !matches!(kind, 0 | 1 | 8 | 9) {
        return None;
    }
    Some(IoInfo {
        value: low_bytes(number(image, Field::Rax), length),
        port: (state / 65536 % 65536) as u16,
        width: width_of(length),
        kind: if matches!(kind, 1 | 9) { 1 } else { 2 },
    })
}

// A field's number, or 0 where the map hasn't the field.
pub(crate) fn number(image: &Image, field: Field) -> u64
    ensures { result ≡ number_in image.now field }
{
    image.field(field).unwrap_or(0)
}

// The low bytes of a number, as many as an I/O instruction's length.
fn low_bytes(number: u64, length: u64) -> u64
    requires { IsTrue (is_io_length length) }
    ensures { result ≡ number % 256 ^ length }
{
    match length {
        1 => number % 0x100,
        2 => number % 0x1_0000,
        4 => number % 0x1_0000_0000,
        _ => unreachable!(),
    }
}

fn width_of(length: u64) -> u32
    ensures { result ≡ width_code length }
{
    match length {
        1 => 0,
        2 => 1,
        _ => 2,
    }
}

// The answer's 24 bytes.
pub(crate) fn bytes_of(io: &IoInfo) -> [u8; 24]
    ensures { result ≡ io_bytes io.now }
{
    let value = io.value.to_le_bytes();
    let port = io.port.to_le_bytes();
    let width = io.width.to_le_bytes();
    let kind = io.kind.to_le_bytes();
    [
        value[0], value[1], value[2], value[3], value[4], value[5], value[6], value[7], port[0],
        port[1], 0, 0, width[0], width[1], width[2], width[3], kind[0], kind[1], kind[2], kind[3],
        0, 0, 0, 0,
    ]
}
