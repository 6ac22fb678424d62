// The file that holds the images of all processors, one after the other.
#![tactic(auto)]

mod error;
mod laws;
mod reading;
mod writing;

pub use error::ImagesError;
pub use laws::file_laws;
pub use reading::read_images;
pub use writing::write_images;
