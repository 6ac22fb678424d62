// The memory that handlers ask for: blocks of six sizes and runs of whole pages of one range.
#![tactic(auto)]

mod error;
mod flags;
mod free_list;
mod laws;
mod marks;
mod pool;
mod taking;

pub use error::PoolError;
pub use laws::pool_laws;
pub use pool::Pool;
