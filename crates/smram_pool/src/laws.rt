ghost use Rattle.std.specs.Prelude.{ℕ};
ghost use Rattle.smram_pool.specs.Partition.{IsPartition, IsWellFormed};
ghost use Rattle.smram_pool.specs.State.{PoolState, allocated, freed, pages_allocated, pages_freed, fresh};

/// The laws of the pool's definition, over every state. It does nothing when it runs.
pub fn pool_laws()
    // In a well-formed state each byte of the range is in exactly one free block, live block, free page or live run.
    ensures partition { (s : PoolState) → IsWellFormed s → IsPartition s }

    // A pool begins well formed, and every request leaves it so.
    ensures new_holds { (start pages : ℕ) → IsWellFormed (fresh start pages) }
    ensures alloc_keeps { (size : ℕ) (s : PoolState) → IsWellFormed s → IsWellFormed ((allocated size s).1) }
    ensures free_keeps { (place : ℕ) (s : PoolState) → IsWellFormed s → IsWellFormed ((freed place s).1) }
    ensures alloc_pages_keeps { (count : ℕ) (s : PoolState) → IsWellFormed s → IsWellFormed ((pages_allocated count s).1) }
    ensures free_pages_keeps { (place count : ℕ) (s : PoolState) → IsWellFormed s → IsWellFormed ((pages_freed place count s).1) }
{}
