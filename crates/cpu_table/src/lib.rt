// The platform as data: how many processors there are, what each wave of interrupts does, which
// handlers run.
#![tactic(auto)]

mod copying;
mod handlers;
mod items;
mod layout;
mod setup;
mod table;
mod text;
mod waves;

pub use handlers::{Act, HandlerDef, OpDef, Operand, ProcedureDef};
pub use items::Items;
pub use layout::{LayoutError, layout_fault};
pub use setup::{CauseAt, Mode, Setup, Smram};
pub use smm_base::{HandlerType, Policy};
pub use table::{CpuTable, TableError};
pub use text::Text;
pub use waves::{Arrival, Wave};
