// The shared words of the rendezvous: which there are, what is done to them, and what an event says.
#![tactic(auto)]

mod access;
mod event;
mod label;
mod row;
mod signal;
mod word;

pub use access::{Access, Applied, LOCKED, apply};
pub use event::{Event, EventLine, Hand, Want};
pub use label::{CAUSES, Label, StartRefusal, cause_laws};
pub use row::Row;
pub use signal::{BLOCKED, DELIVERABLE, HELD, INSIDE, NO_SIGNAL, OFF};
pub use smm_base::{After, HandlerType, Register, Status};
pub use word::WordId;
