ghost use Rattle.std.specs.Prelude.{◌≡◌, ◌+◌, ◌^◌, ◌<◌, ◌≤◌, ◌||◌, ◌==◌, ◌↔◌, ◌-◌, ◌++◌, replicate, length, slice_index, IsTrue, IsOk, IfOk, IfErr};
ghost use Rattle.std.specs.Bool.{OnTrue, OnFalse};
ghost use Rattle.save_state_map.specs.declared.image.ImageError.TheVariants.{Length};
ghost use Rattle.save_state_map.specs.Fields.{image_length};
ghost use Rattle.save_state_map.specs.Images.{IsImage, field_of, with_field, Accepts};

use crate::field::Field;
use byteorder::{ByteOrder, LittleEndian};
use smm_base::MapKind;
use std::fmt;
use std::marker::Model;

/// Why bytes are no image.
#[derive(Clone, Copy, Debug, PartialEq, Eq)]
pub enum ImageError {
    /// There are this many bytes, and the map wants another number.
    Length(usize),
}

/// Writes `length` and the number of bytes.
impl fmt::Display for ImageError {
    ghost use Rattle.std.specs.Prelude.{Some};
    ghost use Rattle.save_state_map.specs.Texts.{image_error_text};

    ghost output = { λ error. Some (image_error_text error) };

    fn fmt<W: fmt::Write>(&self, f: &mut fmt::Formatter<W>) -> fmt::Result {
        match self {
            ImageError::Length(length) => write!(f, "length {length}"),
        }
    }
}

/// How many bytes an image of this map has: 512 or 1,024.
pub fn image_size(kind: MapKind) -> usize
    ensures { result ≡ image_length kind }
{
    match kind {
        MapKind::Ia32 => 512,
        MapKind::Intel64 => 1024,
    }
}

/// What a processor saves at an SMI: the last 512 bytes (32-bit map) or 1,024 bytes (Intel 64 map)
/// below SMBASE + 10000H.
#[derive(Clone, Copy, Debug, PartialEq, Eq)]
pub struct Image {
    kind: MapKind,
    bytes: [u8; 1024],
}

impl Model for Image {
    ghost use Rattle.std.specs.Prelude.{◌-◌, ◌++◌, ℕ, List, take, length, replicate};
    ghost use Rattle.std.proofs.Common.{ap};
    ghost use Rattle.save_state_map.specs.Fields.{image_length};
    ghost use Rattle.save_state_map.specs.Images.{ImageContents};
    ghost use Rattle.save_state_map.specs.Padding.{IsPadded, image_bytes_back};

    ghost Value = { ImageContents };

    ghost view = { λ a. record { kind = a.kind; bytes = take (image_length a.kind) a.bytes } };

    ghost invariant = { λ a. IsPadded a.kind a.bytes };

    ghost inverse = { λ v. record { kind = v.kind; bytes = v.bytes ++ replicate (1024 - length v.bytes) 0 } };

    ghost inverse_ok = { λ a h. ap (λ (bytes : List ℕ). record { kind = a.kind; bytes = bytes }) (image_bytes_back a.kind a.bytes h) };
}

impl Image {
    /// The image with these bytes. Refused exactly where there are more or fewer than the map's 512 or
    /// 1,024.
    pub fn new(kind: MapKind, bytes: &[u8]) -> Result<Image, ImageError>
        ensures accepted { IsOk result ↔ (length bytes.now ≡ image_length kind) }
        ensures image { IfOk result (λ image. image ≡ record { kind = kind; bytes = bytes.now }) }
        ensures refused { IfErr result (λ error. error ≡ Length (length bytes.now)) }
    {
        if bytes.len() != image_size(kind) {
            return Err(ImageError::Length(bytes.len()));
        }
        Ok(Image {
            kind,
            bytes: padded(bytes),
        })
    }

    /// The map that the image follows.
    pub fn kind(&self) -> MapKind
        ensures kind { result ≡ self.now.kind }
        ensures image { IsImage self.now }
    {
        self.kind
    }

    /// All bytes of the image.
    pub fn bytes(&self) -> &[u8]
        ensures bytes { result.now ≡ self.now.bytes }
        ensures image { IsImage self.now }
    {
        &self.bytes[..image_size(self.kind)]
    }

    /// One byte of the image.
    pub fn byte(&self, at: usize) -> u8
        requires { at < image_length self.now.kind }
        ensures { result ≡ slice_index self.now.bytes at }
    {
        self.bytes()[at]
    }

    /// The number of a field: exactly where the image's map has it.
    pub fn field(&self, field: Field) -> Option<u64>
        ensures { result ≡ field_of self.now field }
    {
        let place = field.place(self.kind)?;
        let bytes = self.bytes();
        Some(LittleEndian::read_uint(&bytes[place.offset..], place.width))
    }

    /// Puts a number into a field. False, and nothing changes, exactly where the image's map hasn't the field
    /// or the number doesn't fit its width. Else only the field's own bytes change.
    pub fn set_field(&mut self, field: Field, value: u64) -> bool
        ensures accepted { IsTrue result ↔ Accepts self.old field value }
        ensures changed { OnTrue result (self.new ≡ with_field self.old field value) }
        ensures refused { OnFalse result (self.new ≡ self.old) }
    {
        let Some(place) = field.place(self.kind) else {
            return false;
        };
        if !fits(value, place.width) {
            return false;
        }
        let size = image_size(self.kind);
        let bytes = &mut self.bytes[..size];
        LittleEndian::write_uint(&mut bytes[place.offset..], value, place.width);
        true
    }
}

// The bytes, and zeros behind them.
fn padded(bytes: &[u8]) -> [u8; 1024]
    requires { length bytes.now ≤ 1024 }
    ensures { result ≡ bytes.now ++ replicate (1024 - length bytes.now) 0 }
{
    let mut all = [0; 1024];
    all[..bytes.len()].copy_from_slice(bytes);
    all
}

// Whether a number can be written in this many bytes.
fn fits(value: u64, width: usize) -> bool
    requires { IsTrue (width == 2 || width == 4 || width == 8) }
    ensures { IsTrue result ↔ (value < 256 ^ width) }
{
    match width {
        2 => value <= 0xFFFF,
        4 => value <= 0xFFFF_FFFF,
        _ => true,
    }
}
