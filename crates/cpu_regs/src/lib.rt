// The registers of a processor: kept, saved into an image at an SMI, and loaded from it at a resume.
#![tactic(auto)]

mod laws;
mod regs;
mod switch;

pub use laws::switch_laws;
pub use regs::Regs;
pub use smm_base::{After, Cause, IoCause};
pub use switch::{enter, resume};
