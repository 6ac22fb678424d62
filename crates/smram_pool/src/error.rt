ghost use Rattle.std.specs.Prelude.{Some};
ghost use Rattle.smram_pool.specs.Texts.{pool_error_text};

use std::fmt;

/// Why a request of the pool is refused. A refusal changes nothing.
#[derive(Clone, Copy, PartialEq, Eq)]
pub enum PoolError {
    /// Nothing was asked for: 0 bytes or 0 pages.
    Zero,
    /// No block and no page that could be halved is free, or no run of so many pages.
    OutOfResources,
    /// No live block and no live run starts at this place, or the run has another number of pages.
    NotABlock(u64),
}

/// Writes the cause: `zero`, `out-of-resources`, or `not-a-block` and the place.
impl fmt::Display for PoolError {
    ghost output = { λ error. Some (pool_error_text error) };

    fn fmt<W: fmt::Write>(&self, f: &mut fmt::Formatter<W>) -> fmt::Result {
        match self {
            PoolError::Zero => f.write_str("zero"),
            PoolError::OutOfResources => f.write_str("out-of-resources"),
            PoolError::NotABlock(place) => write!(f, "not-a-block {place}"),
        }
    }
}
