ghost use Rattle.std.specs.Prelude.{◌≡◌, ◌+◌, ◌*◌, ◌%◌, ◌^◌, ◌<◌, ◌≤◌, IfSome, OnSome, length, slice_index_or, slice_set};
ghost use Rattle.smram_pool.specs.Shelf.{IsBlock};
ghost use Rattle.smram_pool.specs.Shelves.{lists_of, no_shelf, with_front, AreShelves};
ghost use Rattle.smram_pool.specs.State.{block_size, block_taken, class_for, pages_for, run_taken};
ghost use Rattle.smram_pool.specs.Taking.{IsPage, place_taken, blocks_left, pages_left, run_place, run_left};
ghost use Rattle.smram_pool.specs.Views.{free_from};

use crate::flags::{fill, find_run};
use crate::free_list::FreeList;

/// The bytes of a page that was halved this many times.
pub fn block_size(halvings: u32) -> u64
    requires { halvings ≤ 6 }
    ensures { result ≡ block_size halvings }
{
    match halvings {
        0 => 4096,
        1 => 2048,
        2 => 1024,
        3 => 512,
        4 => 256,
        5 => 128,
        _ => 64,
    }
}

/// The class of the least blocks that hold this many bytes, as the number of halvings.
pub fn class_for(size: u64) -> u32
    ensures { result ≡ class_for size }
{
    if size <= 64 {
        6
    } else if size <= 128 {
        5
    } else if size <= 256 {
        4
    } else if size <= 512 {
        3
    } else if size <= 1024 {
        2
    } else {
        1
    }
}

/// The least number of pages that hold this many bytes.
pub fn pages_for(size: u64) -> u64
    requires { 0 < size }
    ensures { result ≡ pages_for size }
{
    (size - 1) / 4096 + 1
}

/// The place of the first run of so many free pages.
pub fn place_of_pages(free: &[bool], start: u64, count: usize) -> Option<u64>
    requires some { 0 < count }
    requires low { start < 2 ^ 63 }
    requires few { length free.now ≤ 2048 }
    ensures { result ≡ run_place (run_taken count (free_from start free.now)) }
{
    match find_run(free, count) {
        Some(index) => Some(start + 4096 * index as u64),
        None => None,
    }
}

/// The place of the block that a request of this class takes: the first of its list, or the lower half of a larger one.
pub fn place_of_block(lists: &[FreeList], free: &[bool], start: u64, halvings: u32) -> Option<u64>
    requires class { halvings ≤ 6 }
    requires shelves { AreShelves (length free.now) lists.now }
    requires low { start < 2 ^ 63 }
    requires few { length free.now ≤ 2048 }
    ensures { result ≡ place_taken (block_taken halvings (lists_of lists.now) (free_from start free.now)) }
{
    if halvings == 0 {
        return place_of_pages(free, start, 1);
    }
    match lists[halvings as usize - 1].first() {
        Some(place) => Some(place),
        None => place_of_block(lists, free, start, halvings - 1),
    }
}

/// Takes the first run of so many free pages.
pub fn take_pages(free: &mut [bool], start: u64, count: usize) -> Option<u64>
    requires some { 0 < count }
    requires low { start < 2 ^ 63 }
    requires few { length free.old ≤ 2048 }
    ensures run { result ≡ run_place (run_taken count (free_from start free.old)) }
    ensures left { free_from start free.new ≡ run_left (free_from start free.old) (run_taken count (free_from start free.old)) }
    ensures within { IfSome result (IsPage start (length free.old) count) }
{
    let index = find_run(free, count)?;
    fill(free, index, count, false);
    Some(start + 4096 * index as u64)
}

/// Takes a block of a class: the first of its list, or the lower half of a larger one.
pub fn take_block(
    lists: &mut [FreeList],
    free: &mut [bool],
    start: u64,
    halvings: u32,
) -> Option<u64>
    requires class { halvings ≤ 6 }
    requires shelves { AreShelves (length free.old) lists.old }
    requires begins { start % 4096 ≡ 0 }
    requires low { start < 2 ^ 63 }
    requires few { length free.old ≤ 2048 }
    ensures place { result ≡ place_taken (block_taken halvings (lists_of lists.old) (free_from start free.old)) }
    ensures blocks { lists_of lists.new ≡ blocks_left (lists_of lists.old) (block_taken halvings (lists_of lists.old) (free_from start free.old)) }
    ensures pages { free_from start free.new ≡ pages_left (free_from start free.old) (block_taken halvings (lists_of lists.old) (free_from start free.old)) }
    ensures shelves { AreShelves (length free.old) lists.new }
    ensures length { length free.new ≡ length free.old }
    ensures block { IfSome result (IsBlock (block_size halvings)) }
    ensures some { OnSome result (0 < length free.old) }
{
    if halvings == 0 {
        return take_pages(free, start, 1);
    }
    let class = halvings as usize - 1;
    match lists[class].take_first() {
        Some(place) => Some(place),
        None => {
            let place = take_block(lists, free, start, halvings - 1)?;
            lists[class].put_first(place + block_size(halvings));
            Some(place)
        }
    }
}

/// Puts a block to the front of one of the lists.
pub fn put_in(lists: &mut [FreeList], index: usize, place: u64)
    requires there { index < length lists.old }
    requires room { length (slice_index_or lists.old index no_shelf).places < (slice_index_or lists.old index no_shelf).room }
    requires block { IsBlock (slice_index_or lists.old index no_shelf).size place }
    ensures { lists.new ≡ slice_set lists.old index (with_front place (slice_index_or lists.old index no_shelf)) }
{
    lists[index].put_first(place);
}
