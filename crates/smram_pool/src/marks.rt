ghost use Rattle.std.specs.Prelude.{◌≡◌, ℕ, ◌≢◌, ◌+◌, ◌*◌, ◌<◌, None, MatchOption, slice_index_or};

/// The index of the item that stands for this place, where the items of an array stand for places that
/// are 64 bytes apart.
pub fn unit_of(start: u64, place: u64) -> Option<usize>
    ensures { MatchOption result ((i : ℕ) → place ≢ start + 64 * i) (λ i. place ≡ start + 64 * i) }
{
    if place < start || (place - start) % 64 != 0 {
        return None;
    }
    Some(((place - start) / 64) as usize)
}

/// The index of the page that begins at this place.
pub fn page_of(start: u64, place: u64) -> Option<usize>
    ensures { MatchOption result ((i : ℕ) → place ≢ start + 4096 * i) (λ i. place ≡ start + 4096 * i) }
{
    if place < start || (place - start) % 4096 != 0 {
        return None;
    }
    Some(((place - start) / 4096) as usize)
}

/// The mark at an index, if there is one.
pub fn mark_at(marks: &[Option<u32>], index: usize) -> Option<u32>
    ensures { result ≡ slice_index_or marks.now index None }
{
    if index < marks.len() {
        marks[index]
    } else {
        None
    }
}
