ghost use Rattle.std.specs.Prelude.{◌≡◌, ◌≢◌, ◌*◌, ◌≤◌, nat_eq, List, length, Some, None, Err, IfOk, IfErr, MatchResult};
ghost use Rattle.std.specs.List.{starts_with};
ghost use Rattle.save_state_map.specs.Fields.{image_length};
ghost use Rattle.save_state_map.specs.Images.{ImageContents};
ghost use Rattle.image_file.specs.declared.error.ImagesError.{ImagesError};
ghost use Rattle.image_file.specs.declared.error.ImagesError.TheVariants.{NoMemory};
ghost use Rattle.image_file.specs.Spelling.{magic, IsSpelling};
ghost use Rattle.image_file.specs.Refusals.{version_of, kind_number_of, kind_numbered, count_of, whole_length, refusal_of};
ghost use Rattle.image_file.specs.Contents.{images_at, images_in};

use crate::error::ImagesError;
use byteorder::{ByteOrder, LittleEndian};
use save_state_map::{Image, image_size};
use smm_base::MapKind;
use std::alloc::Global;

const HEADER: usize = 12;

const MOST: u32 = 64;

/// The images that a file holds. `Ok` carries images exactly where the file is their spelling. Else the
/// answer is the refusal of the first check that fails, unless a whole file meets want of memory.
pub fn read_images(alloc: Global, bytes: &[u8]) -> Result<Vec<Image>, ImagesError>
    // What is read is spelled so, and what is spelled so is read, unless memory runs out.
    ensures found { IfOk result (λ images. IsSpelling bytes.now images.items) }
    ensures only { (images : List ImageContents) → IsSpelling bytes.now images → MatchResult result (λ read. read.items ≡ images) (λ error. error ≡ NoMemory) }

    // It has no refusal, and the images are those that its header tells of.
    ensures unrefused { IfOk result (λ _. refusal_of bytes.now ≡ None) }
    ensures contents { IfOk result (λ images. images.items ≡ images_in bytes.now) }

    // A file with a refusal gives that one, and no other file gives any but want of memory.
    ensures refused { (error : ImagesError) → refusal_of bytes.now ≡ Some error → result ≡ Err error }
    ensures refusal { IfErr result (λ error. error ≢ NoMemory → refusal_of bytes.now ≡ Some error) }
{
    let (kind, count) = checked(bytes)?;
    images_of(alloc, kind, count, &bytes[HEADER..])
}

// The kind and the count of a file that has no refusal.
fn checked(bytes: &[u8]) -> Result<(MapKind, u32), ImagesError>
    ensures exact { MatchResult result (λ _. refusal_of bytes.now ≡ None) (λ error. refusal_of bytes.now ≡ Some error) }
    ensures kind { IfOk result (λ found. found.0 ≡ kind_numbered (kind_number_of bytes.now)) }
    ensures count { IfOk result (λ found. found.1 ≡ count_of bytes.now) }
    ensures whole { IfOk result (λ found. length bytes.now ≡ whole_length found.0 found.1) }
    ensures error { IfErr result (λ error. error ≢ NoMemory) }
{
    let size = bytes.len();
    if size < HEADER {
        return Err(ImagesError::Short(size));
    }
    if !has_magic(bytes) {
        return Err(ImagesError::Magic);
    }
    let version = version_of(bytes);
    if version != 1 {
        return Err(ImagesError::Version(version));
    }
    let number = kind_number_of(bytes);
    if number > 1 {
        return Err(ImagesError::Kind(number));
    }
    let kind = kind_of(number);
    let count = count_of(bytes);
    if count == 0 || count > MOST {
        return Err(ImagesError::Count(count));
    }
    let whole = HEADER + count as usize * image_size(kind);
    if size < whole {
        return Err(ImagesError::Short(size));
    }
    if size > whole {
        return Err(ImagesError::Long(size));
    }
    Ok((kind, count))
}

fn has_magic(file: &[u8]) -> bool
    ensures { result ≡ starts_with nat_eq file.now magic }
{
    file.starts_with(b"SMIM")
}

fn version_of(file: &[u8]) -> u16
    requires { 12 ≤ length file.now }
    ensures { result ≡ version_of file.now }
{
    LittleEndian::read_u16(&file[4..])
}

fn kind_number_of(file: &[u8]) -> u16
    requires { 12 ≤ length file.now }
    ensures { result ≡ kind_number_of file.now }
{
    LittleEndian::read_u16(&file[6..])
}

fn count_of(file: &[u8]) -> u32
    requires { 12 ≤ length file.now }
    ensures { result ≡ count_of file.now }
{
    LittleEndian::read_u32(&file[8..])
}

fn kind_of(number: u16) -> MapKind
    ensures { result ≡ kind_numbered number }
{
    if number == 0 {
        MapKind::Ia32
    } else {
        MapKind::Intel64
    }
}

// The images that stand one after the other.
fn images_of(
    alloc: Global,
    kind: MapKind,
    count: u32,
    bytes: &[u8],
) -> Result<Vec<Image>, ImagesError>
    requires { length bytes.now ≡ count * image_length kind }
    ensures images { IfOk result (λ images. images.items ≡ images_at kind count bytes.now) }
    ensures memory { IfErr result (λ error. error ≡ NoMemory) }
{
    let size = image_size(kind);
    let mut images = Vec::new(alloc);
    let mut rest = bytes;
    for _ in 0..count {
        let (front, behind) = rest.split_at(size);
        images.push(Image::new(kind, front).unwrap())?;
        rest = behind;
    }
    Ok(images)
}
