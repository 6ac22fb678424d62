use smm_base::{LoadError, MemStore, SaveError, Sink, Store, WriteError};
use std::alloc::Global;

/// A store in memory that counts its loads, and those of names that no word of the tests' commands has
/// at the place of an input file.
#[derive(Drop)]
pub struct Counting {
    pub store: MemStore,
    pub loads: u64,
    pub strange: u64,
}

impl Store for Counting {
    ghost use Rattle.std.specs.Prelude.{None, Some};
    ghost use Rattle.smm_base.specs.MemStore.{file_of, failed_loads_of, failed_saves_of, Moves};

    ghost files = { λ counting. Some (file_of counting.store) };

    ghost failed_loads = { λ counting. failed_loads_of counting.store };

    ghost failed_saves = { λ counting. failed_saves_of counting.store };

    ghost fails_next = { λ _. None };

    ghost moves = { λ before after. Moves before.store after.store };

    fn load(&mut self, alloc: Global, name: &str, limit: u64) -> Result<Vec<u8>, LoadError> {
        self.loads = self.loads.saturating_add(1);
        if name == "A" {
            self.strange = self.strange.saturating_add(1);
        }
        self.store.load(alloc, name, limit)
    }

    fn save(&mut self, name: &str, bytes: &[u8]) -> Result<(), SaveError> {
        self.store.save(name, bytes)
    }

    ghost loads_never_fall = { λ before after moved. moved.loads };

    ghost saves_never_fall = { λ before after moved. moved.saves };
}

/// A sink for which there is no memory.
#[derive(Drop)]
pub struct Full;

impl Sink for Full {
    ghost use Rattle.std.specs.Prelude.{None};
    ghost use Rattle.std.proofs.Common.{rules};

    ghost written = { λ _. None };

    ghost faults = { λ _. 0 };

    ghost fails_next = { λ _. None };

    ghost most = { λ _. None };

    ghost moves = { λ _ _. Unit };

    fn write(&mut self, _: &[u8]) -> Result<usize, WriteError> {
        Err(WriteError::NoMemory)
    }

    ghost never_falls = { λ before after moved. Prim.search rules };
}

/// A sink that takes all, and remembers how long the longest piece was and how many there were.
#[derive(Drop)]
pub struct Pieces {
    pub longest: usize,
    pub count: u64,
}

impl Sink for Pieces {
    ghost use Rattle.std.specs.Prelude.{None};
    ghost use Rattle.std.proofs.Common.{rules};

    ghost written = { λ _. None };

    ghost faults = { λ _. 0 };

    ghost fails_next = { λ _. None };

    ghost most = { λ _. None };

    ghost moves = { λ _ _. Unit };

    fn write(&mut self, piece: &[u8]) -> Result<usize, WriteError> {
        self.longest = self.longest.max(piece.len());
        self.count = self.count.saturating_add(1);
        Ok(piece.len())
    }

    ghost never_falls = { λ before after moved. Prim.search rules };
}
