// SMRAM for several processors: where each enters and saves its state, how it gets there, and the
// pages that are left for a pool.
#![tactic(auto)]

mod accept;
mod area;
mod error;
mod laws;
mod places;
mod pool;
mod relocation;

pub use accept::layout;
pub use area::DefaultArea;
pub use cpu_table::LayoutError;
pub use error::RelocError;
pub use laws::relocation_laws;
pub use places::Layout;
pub use pool::{PoolRange, pool_range};
pub use relocation::{relocate, relocation_fault};

#[cfg(test)]
mod tests;
