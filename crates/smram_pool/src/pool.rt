ghost use Rattle.std.specs.Prelude.{◌≡◌, ℕ, ◌+◌, ◌*◌, ◌%◌, ◌^◌, ◌<◌, ◌≤◌, true, IfOk, None, Some, replicate};
ghost use Rattle.smram_pool.specs.Shelves.{empty_shelves};

use crate::PoolError;
use crate::flags::fill;
use crate::free_list::FreeList;
use crate::marks::{mark_at, page_of, unit_of};
use crate::taking::{
    class_for, pages_for, place_of_block, place_of_pages, put_in, take_block, take_pages,
};
use smm_base::NoMemory;
use std::alloc::Global;
use std::marker::Model;

/// A range of memory that is handed out in blocks of 64 to 2,048 bytes and in runs of whole pages.
#[derive(Drop)]
pub struct Pool {
    /// The first byte of the range.
    start: u64,
    /// The free blocks by class, from 2,048 bytes down to 64.
    lists: [FreeList; 6],
    /// For each 64 bytes of the range, the class of the live block that begins there.
    live: Vec<Option<u32>>,
    /// For each page, whether it is free.
    free: Vec<bool>,
    /// For each page, the number of pages of the live run that begins there.
    runs: Vec<Option<u32>>,
}

impl Model for Pool {
    ghost use Rattle.smram_pool.specs.State.{PoolState};

    ghost Value = { PoolState };

    ghost use Rattle.smram_pool.specs.Inside.{state_of, HoldsTogether};

    ghost view = { state_of };

    ghost invariant = { HoldsTogether };
}

/// The empty lists of a pool with this many pages.
fn empty_lists(alloc: Global, pages: usize) -> Result<[FreeList; 6], NoMemory>
    requires { pages ≤ 2048 }
    ensures { IfOk result (λ lists. lists ≡ empty_shelves pages) }
{
    Ok([
        FreeList::new(alloc, pages * 2, 2048)?,
        FreeList::new(alloc, pages * 4, 1024)?,
        FreeList::new(alloc, pages * 8, 512)?,
        FreeList::new(alloc, pages * 16, 256)?,
        FreeList::new(alloc, pages * 32, 128)?,
        FreeList::new(alloc, pages * 64, 64)?,
    ])
}

/// This many places at which nothing is live.
fn no_marks(alloc: Global, count: usize) -> Result<Vec<Option<u32>>, NoMemory>
    ensures { IfOk result (λ marks. marks.items ≡ replicate count None) }
{
    let mut marks = Vec::with_capacity(alloc, count)?;
    for _index in 0..count {
        marks.push(None)?;
    }
    Ok(marks)
}

/// The flags of this many free pages.
fn all_free(alloc: Global, count: usize) -> Result<Vec<bool>, NoMemory>
    ensures { IfOk result (λ flags. flags.items ≡ replicate count true) }
{
    let mut flags = Vec::with_capacity(alloc, count)?;
    for _index in 0..count {
        flags.push(true)?;
    }
    Ok(flags)
}

impl Pool {
    ghost use Rattle.smram_pool.specs.State.{allocated, freed, pages_allocated, pages_freed, fresh};
    ghost use Rattle.smram_pool.specs.Order.{IsInOrder};
    ghost use Rattle.smram_pool.specs.Partition.{IsPartition, IsWellFormed};

    /// A pool of `pages` free pages of 4,096 bytes from the address `start`: at most 2,048 pages, or none, from a
    /// multiple of 4,096 below 2^63. It is refused only for want of memory. No other call takes memory.
    pub fn new(alloc: Global, start: u64, pages: u32) -> Result<Pool, NoMemory>
        requires few { pages ≤ 2048 }
        requires begins { start % 4096 ≡ 0 }
        requires low { start < 2 ^ 63 }
        ensures { IfOk result (λ pool. pool ≡ fresh start pages) }
    {
        let count = pages as usize;
        let lists = empty_lists(alloc, count)?;
        let live = no_marks(alloc, 64 * count)?;
        let free = all_free(alloc, count)?;
        let runs = no_marks(alloc, count)?;
        Ok(Pool {
            start,
            lists,
            live,
            free,
            runs,
        })
    }

    /// The address of the first byte of the range.
    pub fn start(&self) -> u64
        ensures value { result ≡ self.now.start }

        // After any calls each byte of the range is in exactly one free block, live block, free page or live run.
        ensures partition { IsPartition self.now }
        ensures well_formed { IsWellFormed self.now }
        ensures order { IsInOrder self.now }
    {
        self.start
    }

    /// Takes a block of the least class that holds `size` bytes, or for more than 2,048 bytes a run of whole pages, and
    /// gives its address. `Zero` where the size is 0; `OutOfResources` where there is no place for it. A refusal changes
    /// nothing.
    pub fn alloc(&mut self, size: u64) -> Result<u64, PoolError>
        ensures answer { result ≡ (allocated size self.old).0 }
        ensures after { self.new ≡ (allocated size self.old).1 }
    {
        if size == 0 {
            return Err(PoolError::Zero);
        }
        if size <= 2048 {
            return self.take_class(class_for(size));
        }
        self.take_run(pages_for(size))
    }

    /// Frees the live block or the whole live run that starts at the address `place`.
    /// `NotABlock` where neither starts there; then nothing changes.
    pub fn free(&mut self, place: u64) -> Result<(), PoolError>
        ensures answer { result ≡ (freed place self.old).0 }
        ensures after { self.new ≡ (freed place self.old).1 }
    {
        if let Some(class) = self.live_class(place) {
            self.put_block(place, class);
            return Ok(());
        }
        match self.live_count(place) {
            Some(count) => {
                self.put_run(place, count);
                Ok(())
            }
            None => Err(PoolError::NotABlock(place)),
        }
    }

    /// What `alloc` would answer.
    pub fn alloc_answer(&self, size: u64) -> Result<u64, PoolError>
        ensures { result ≡ (allocated size self.now).0 }
    {
        if size == 0 {
            return Err(PoolError::Zero);
        }
        if size <= 2048 {
            return self.class_answer(class_for(size));
        }
        self.run_answer(pages_for(size))
    }

    /// What `free` would answer.
    pub fn free_answer(&self, place: u64) -> Result<(), PoolError>
        ensures { result ≡ (freed place self.now).0 }
    {
        match self.live_class(place) {
            Some(_) => Ok(()),
            None => match self.live_count(place) {
                Some(_) => Ok(()),
                None => Err(PoolError::NotABlock(place)),
            },
        }
    }

    /// Takes the run of `count` free pages with the lowest address and gives that address.
    /// `Zero` where the count is 0; `OutOfResources` where no run of so many pages is free. A refusal changes nothing.
    pub fn alloc_pages(&mut self, count: u32) -> Result<u64, PoolError>
        ensures answer { result ≡ (pages_allocated count self.old).0 }
        ensures after { self.new ≡ (pages_allocated count self.old).1 }
    {
        if count == 0 {
            return Err(PoolError::Zero);
        }
        self.take_run(u64::from(count))
    }

    /// Frees the live run with exactly this place and number of pages.
    /// `NotABlock` where there is none; then nothing changes.
    pub fn free_pages(&mut self, place: u64, count: u32) -> Result<(), PoolError>
        ensures answer { result ≡ (pages_freed place count self.old).0 }
        ensures after { self.new ≡ (pages_freed place count self.old).1 }
    {
        match self.live_count(place) {
            Some(held) => {
                if held != count {
                    return Err(PoolError::NotABlock(place));
                }
                self.put_run(place, count);
                Ok(())
            }
            None => Err(PoolError::NotABlock(place)),
        }
    }
}

impl Pool {
    ghost use Rattle.smram_pool.specs.State.{block_allocated, block_taken, run_allocated, run_taken, found, block_freed, run_freed};
    ghost use Rattle.smram_pool.specs.Partition.{IsClass};

    /// The class of the live block that begins at a place.
    fn live_class(&self, place: u64) -> Option<u32>
        ensures { result ≡ found place self.now.live }
    {
        match unit_of(self.start, place) {
            Some(unit) => mark_at(self.live.as_slice(), unit),
            None => None,
        }
    }

    /// The number of pages of the live run that begins at a place.
    fn live_count(&self, place: u64) -> Option<u32>
        ensures { result ≡ found place self.now.runs }
    {
        match page_of(self.start, place) {
            Some(page) => mark_at(self.runs.as_slice(), page),
            None => None,
        }
    }

    /// What the request of a block of a class would answer.
    fn class_answer(&self, class: u32) -> Result<u64, PoolError>
        requires { IsClass class }
        ensures { result ≡ (block_allocated class self.now (block_taken class self.now.blocks self.now.free_pages)).0 }
    {
        let lists = &self.lists;
        match place_of_block(lists, self.free.as_slice(), self.start, class) {
            Some(place) => Ok(place),
            None => Err(PoolError::OutOfResources),
        }
    }

    /// What the request of so many pages would answer.
    fn run_answer(&self, count: u64) -> Result<u64, PoolError>
        requires { 0 < count }
        ensures { result ≡ (run_allocated count self.now (run_taken count self.now.free_pages)).0 }
    {
        match place_of_pages(self.free.as_slice(), self.start, count as usize) {
            Some(place) => Ok(place),
            None => Err(PoolError::OutOfResources),
        }
    }

    /// Takes a block of a class.
    fn take_class(&mut self, class: u32) -> Result<u64, PoolError>
        requires { IsClass class }
        ensures answer { result ≡ (block_allocated class self.old (block_taken class self.old.blocks self.old.free_pages)).0 }
        ensures after { self.new ≡ (block_allocated class self.old (block_taken class self.old.blocks self.old.free_pages)).1 }
    {
        match take_block(&mut self.lists, &mut self.free, self.start, class) {
            Some(place) => {
                self.live[((place - self.start) / 64) as usize] = Some(class);
                Ok(place)
            }
            None => Err(PoolError::OutOfResources),
        }
    }

    /// Takes the first run of so many free pages.
    fn take_run(&mut self, count: u64) -> Result<u64, PoolError>
        requires { 0 < count }
        ensures answer { result ≡ (run_allocated count self.old (run_taken count self.old.free_pages)).0 }
        ensures after { self.new ≡ (run_allocated count self.old (run_taken count self.old.free_pages)).1 }
    {
        match take_pages(&mut self.free, self.start, count as usize) {
            Some(place) => {
                self.runs[((place - self.start) / 4096) as usize] = Some(count as u32);
                Ok(place)
            }
            None => Err(PoolError::OutOfResources),
        }
    }

    /// Puts a live block to the front of its class's list.
    fn put_block(&mut self, place: u64, class: u32)
        requires { found place self.old.live ≡ Some class }
        ensures { self.new ≡ block_freed place class self.old }
    {
        self.live[((place - self.start) / 64) as usize] = None;
        put_in(&mut self.lists, class as usize - 1, place);
    }

    /// Makes the pages of a live run free.
    fn put_run(&mut self, place: u64, count: u32)
        requires { found place self.old.runs ≡ Some count }
        ensures { self.new ≡ run_freed place count self.old }
    {
        let page = ((place - self.start) / 4096) as usize;
        self.runs[page] = None;
        fill(&mut self.free, page, count as usize, true);
    }
}
