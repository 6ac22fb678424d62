// What every layer stands on: the words of the field as types, and the traits of the outside.
#![tactic(auto)]

mod dir_store;
mod gate;
mod kinds;
mod mem_sink;
mod mem_store;
mod memory;
mod registers;
mod sink;
mod status;
mod std_sink;
mod store;

pub use dir_store::DirStore;
pub use gate::{Gate, OpenGate};
pub use kinds::{After, Cause, HandlerType, IoCause, MapKind, Policy, WAYS_ON, after_laws};
pub use mem_sink::MemSink;
pub use mem_store::MemStore;
pub use memory::NoMemory;
pub use registers::{REGISTERS, Register, register_laws};
pub use sink::{Sink, WriteError, write_all};
pub use status::{STATUSES, Status, status_laws};
pub use std_sink::StdSink;
pub use store::{LoadError, SaveError, Store};
