// Event lines as text, both ways, where many lines come again: an actor that waits repeats its line, and so does a handler that is
// called once more. Some lines are kept, and one that comes again is neither taken apart nor put together anew. Of the line of an event with
// a job, which is another one each time, the opening is kept.
#![tactic(auto)]

mod ending;
mod kept;
mod opening;
mod place;
mod reader;
mod same;
mod writer;

pub use reader::LineReader;
pub use writer::LineWriter;
