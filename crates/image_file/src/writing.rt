ghost use Rattle.std.specs.Prelude.{◌≡◌, ◌≤◌, length, All, IfOk};
ghost use Rattle.image_file.specs.Spelling.{kind_number, spelling, IsSpelling};

use save_state_map::Image;
use smm_base::{MapKind, NoMemory};
use std::alloc::Global;

/// The file of these images. An `Err` says only that no memory was left.
pub fn write_images(alloc: Global, kind: MapKind, images: &Vec<Image>) -> Result<Vec<u8>, NoMemory>
    requires some { 1 ≤ length images.now.items }
    requires most { length images.now.items ≤ 64 }
    requires same_kind { All (λ image. image.kind ≡ kind) images.now.items }
    ensures spelled { IfOk result (λ file. file.items ≡ spelling kind images.now.items) }
    ensures readable { IfOk result (λ file. IsSpelling file.items images.now.items) }
{
    let mut file = Vec::new(alloc);
    file.extend_from_slice(b"SMIM")?;
    file.extend_from_slice(&1u16.to_le_bytes())?;
    file.extend_from_slice(&number_of(kind).to_le_bytes())?;
    file.extend_from_slice(&(images.len() as u32).to_le_bytes())?;
    for image in images {
        file.extend_from_slice(image.bytes())?;
    }
    Ok(file)
}

fn number_of(kind: MapKind) -> u16
    ensures { result ≡ kind_number kind }
{
    match kind {
        MapKind::Ia32 => 0,
        MapKind::Intel64 => 1,
    }
}
