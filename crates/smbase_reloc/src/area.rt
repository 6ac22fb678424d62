ghost use Rattle.std.specs.Prelude.{◌≡◌, ◌-◌, ◌++◌, IfOk, drop, take, length};
ghost use Rattle.save_state_map.specs.Fields.{image_length};

use save_state_map::{Image, image_size};
use smm_base::{MapKind, NoMemory};
use std::alloc::Global;
use std::marker::Model;

/// The last 1,024 bytes of the default area, from 3FC00H on: where a processor saves its state
/// before it is relocated.
#[derive(Drop)]
pub struct DefaultArea {
    bytes: Vec<u8>,
}

impl Model for DefaultArea {
    ghost use Rattle.std.specs.Prelude.{◌≡◌, ℕ, List, length};

    ghost Value = { List ℕ };

    ghost view = { λ a. a.bytes.items };

    ghost invariant = { λ a. length a.bytes.items ≡ 1024 };
}

impl DefaultArea {
    /// The area with these bytes.
    pub fn new(alloc: Global, bytes: &[u8]) -> Result<DefaultArea, NoMemory>
        requires { length bytes.now ≡ 1024 }
        ensures { IfOk result (λ area. area ≡ bytes.now) }
    {
        Ok(DefaultArea {
            bytes: Vec::from_slice(alloc, bytes)?,
        })
    }
}

impl DefaultArea {
    /// The bytes.
    pub fn bytes(&self) -> &[u8]
        ensures { result.now ≡ self.now }
    {
        self.bytes.as_slice()
    }

    /// The image at the end of the area.
    pub(crate) fn image(&self, kind: MapKind) -> Image
        ensures { result ≡ record { kind = kind; bytes = drop (1024 - image_length kind) self.now } }
    {
        let size = image_size(kind);
        match Image::new(kind, &self.bytes[1024 - size..]) {
            Ok(image) => image,
            Err(_) => unreachable!(),
        }
    }

    /// Puts an image to the end of the area.
    pub(crate) fn put(&mut self, image: &Image)
        ensures { self.new ≡ take (1024 - image_length image.now.kind) self.old ++ image.now.bytes }
    {
        let bytes = image.bytes();
        self.bytes[1024 - image_size(image.kind())..].copy_from_slice(bytes);
    }

    /// A save state of a processor passes through the area, which is then as before.
    pub(crate) fn carry(&mut self, state: &Image) -> Image
        ensures image { result ≡ state.now }
        ensures stays { self.new ≡ self.old }
    {
        let before = self.image(state.kind());
        self.put(state);
        let read = self.image(state.kind());
        self.put(&before);
        read
    }
}
