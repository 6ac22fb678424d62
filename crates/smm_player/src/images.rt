ghost use Rattle.std.specs.Prelude.{◌≡◌, Ok, IfErr, IfOk};
ghost use Rattle.smm_player.specs.Due.{kinds_agree, differs, counted, serving};
ghost use Rattle.smm_player.specs.Loading.{StopsReading};

use crate::fault::Fault;
use crate::refusal::Refusal;
use image_file::ImagesError;
use save_state_map::Image;
use smbase_reloc::RelocError;
use smm_base::MapKind;
use std::fmt;

/// Why an image file doesn't serve the platform.
#[derive(Clone, Copy)]
pub enum ImagesFault {
    /// It is no image file.
    File(ImagesError),
    /// Its images are not of the platform's kind.
    KindDiffers,
    /// The platform has so many processors, and the file so many images.
    CountDiffers(u16, usize),
    /// One of its images can't be relocated to the platform's area for save states.
    NotRelocated(RelocError),
}

/// Writes the words that stand after `fault images `.
impl fmt::Display for ImagesFault {
    ghost use Rattle.std.specs.Prelude.{Some};
    ghost use Rattle.smm_player.specs.Refusal.{images_fault_text};

    ghost output = { λ fault. Some (images_fault_text fault) };

    fn fmt<W: fmt::Write>(&self, f: &mut fmt::Formatter<W>) -> fmt::Result {
        match self {
            ImagesFault::File(error) => write!(f, "{error}"),
            ImagesFault::KindDiffers => f.write_str("kind-differs"),
            ImagesFault::CountDiffers(processors, count) => {
                write!(f, "count-differs {processors} {count}")
            }
            ImagesFault::NotRelocated(error) => write!(f, "{error}"),
        }
    }
}

// Are both of one map?
fn kinds_agree(first: MapKind, second: MapKind) -> bool
    ensures { result ≡ kinds_agree first second }
{
    match first {
        MapKind::Ia32 => matches!(second, MapKind::Ia32),
        MapKind::Intel64 => matches!(second, MapKind::Intel64),
    }
}

// The images, where there are as many as processors.
fn counted(images: Vec<Image>, processors: u16) -> Result<Vec<Image>, Fault>
    ensures found { IfOk result (λ found. counted processors images.items ≡ Ok found.items) }
    ensures cause { IfErr result (StopsReading (counted processors images.items)) }
{
    let count = images.len();
    if count == processors as usize {
        Ok(images)
    } else {
        Err(Fault::Refused(Refusal::Images(ImagesFault::CountDiffers(processors, count))))
    }
}

// Is there an image, and the first of another kind?
fn is_of_another_kind(images: &Vec<Image>, kind: MapKind) -> bool
    ensures { result ≡ differs kind images.now.items }
{
    match images.first() {
        Some(first) => !kinds_agree(first.kind(), kind),
        None => false,
    }
}

// The images, where they are of the kind and as many as processors.
pub(crate) fn serving(
    images: Vec<Image>,
    kind: MapKind,
    processors: u16,
) -> Result<Vec<Image>, Fault>
    ensures found { IfOk result (λ found. serving kind processors images.items ≡ Ok found.items) }
    ensures cause { IfErr result (StopsReading (serving kind processors images.items)) }
{
    if is_of_another_kind(&images, kind) {
        Err(Fault::Refused(Refusal::Images(ImagesFault::KindDiffers)))
    } else {
        counted(images, processors)
    }
}
