// The register service: registers of a processor's image, read and written by their numbers.
#![tactic(auto)]

mod io;
mod laws;
mod service;
mod table;

pub use io::{IoInfo, io_info};
pub use laws::service_laws;
pub use service::{read_register, write_register};
pub use smm_base::{Register, Status};
pub use table::{Parts, own_width, parts_of};
