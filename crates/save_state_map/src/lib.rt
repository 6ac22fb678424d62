// The save-state maps of Intel processors: which fields an image has, where each stands, and images.
#![tactic(auto)]

mod field;
mod image;
mod laws;

pub use field::{FIELDS, Field, Place};
pub use image::{Image, ImageError, image_size};
pub use laws::field_laws;
pub use smm_base::MapKind;
