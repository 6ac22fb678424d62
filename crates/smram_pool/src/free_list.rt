ghost use Rattle.std.specs.Prelude.{◌≡◌, ◌+◌, ◌<◌, ◌∷◌, [], IfOk, IfSome, OnSome, length};
ghost use Rattle.smram_pool.specs.Shelf.{first, rest, IsBlock};

use smm_base::NoMemory;
use std::alloc::Global;
use std::marker::Model;

/// The free blocks of one class, with room for all that there can be.
#[derive(Drop)]
pub struct FreeList {
    /// The places, with the front of the list at the end.
    places: Vec<u64>,
    /// The bytes of a block.
    size: u64,
}

impl Model for FreeList {
    ghost use Rattle.std.specs.Prelude.{reverse, vec_capacity};
    ghost use Rattle.smram_pool.specs.Shelf.{Shelf, AreBlocks};

    ghost Value = { Shelf };

    ghost view = { λ l. record { places = reverse l.places.items; room = vec_capacity l.places; size = l.size } };

    ghost invariant = { λ l. AreBlocks l.size (reverse l.places.items) };
}

impl FreeList {
    /// An empty list with room for this many blocks of this many bytes.
    pub fn new(alloc: Global, room: usize, size: u64) -> Result<FreeList, NoMemory>
        ensures { IfOk result (λ list. list ≡ record { places = []; room = room; size = size }) }
    {
        let places = Vec::with_capacity(alloc, room)?;
        Ok(FreeList { places, size })
    }

    /// The block at the front.
    pub fn first(&self) -> Option<u64>
        ensures { result ≡ first self.now.places }
    {
        self.places.last().copied()
    }

    /// Takes the block at the front.
    pub fn take_first(&mut self) -> Option<u64>
        ensures first { result ≡ first self.old.places }
        ensures rest { self.new ≡ record self.old { places = rest self.old.places } }
        ensures block { IfSome result (IsBlock self.old.size) }
        ensures room { OnSome result (0 < self.old.room) }
    {
        self.places.pop()
    }

    /// Puts a block at the front.
    pub fn put_first(&mut self, place: u64)
        requires room { length self.old.places < self.old.room }
        requires block { IsBlock self.old.size place }
        ensures { self.new ≡ record self.old { places = place ∷ self.old.places } }
    {
        self.places.push_reserved(place);
    }
}
