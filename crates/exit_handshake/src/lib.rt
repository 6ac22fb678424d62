// How a BSP ends its session: it closes it for further processors and takes their desks, and after the handlers lets them go
// in two rounds.
#![tactic(auto)]

mod close;
mod desks;
mod exit;
mod laws;
mod wanted;

pub use close::Close;
pub use exit::Exit;
pub use laws::{close_laws, exit_laws};
