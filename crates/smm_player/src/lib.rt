// The player: it replays a schedule on a platform, and writes the report and the images; and it writes generated platforms,
// and what becomes of them.
#![tactic(auto)]

mod checking;
mod ending;
mod fault;
mod images;
mod load;
mod making;
mod memory_play;
mod playing;
mod refusal;
mod step;
mod trace;

pub use fault::Fault;
pub use images::ImagesFault;
pub use memory_play::play_in_memory;
pub use playing::play;
pub use refusal::Refusal;
