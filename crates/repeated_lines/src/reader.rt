ghost use Rattle.std.specs.Prelude.{◌≡◌, ◌+◌, ◌^◌, ◌<◌, length, Ok, IfOk, IfErr, IfSome};
ghost use Rattle.sync_words.specs.Texts.{event_line};
ghost use Rattle.sync_words.specs.declared.event.Event.{Event as EventSpec};
ghost use Rattle.repeated_lines.specs.Spelled.{IsSpelled};
ghost use Rattle.trace_text.specs.Spelling.{IsSpelling, StandsAt};

use crate::kept::{KeptLine, LINES};
use std::marker::Model;
use sync_words::Event;
use trace_text::{TextError, read_event, text_laws};

// A line that was read.
#[derive(Clone, Copy)]
struct ReadLine {
    line: KeptLine,
    ghost spelled: { IsSpelled line.processors line.event },
}

/// A reader of the lines of events on a platform of so many processors, as which contracts see it.
#[derive(Drop)]
pub struct LineReader {
    processors: u16,
    lines: [Option<ReadLine>; 128],
}

impl Model for LineReader {
    ghost use Rattle.std.specs.Prelude.{ℕ};

    ghost Value = { ℕ };

    ghost view = { λ r. r.processors };
}

// Where the line is kept that begins with these bytes: by the number of a processor below 100.
fn place_by(first: u8, second: u8) -> usize
    ensures { result < 128 }
{
    let first = first % 12;
    if second == b' ' {
        usize::from(first)
    } else {
        usize::from(first * 10 + second % 16)
    }
}

// Where the line at this place is kept, if it is.
fn place_of(bytes: &[u8], at: usize) -> usize
    ensures { result < 128 }
{
    match bytes.get(at..) {
        Some([_, first, second, ..]) => place_by(*first, *second),
        _ => 0,
    }
}

// A line that was read, to be kept.
fn kept(processors: u16, bytes: &[u8], at: usize, event: Event, next: usize) -> Option<ReadLine>
    requires spelled { IsSpelling processors event }
    requires stands { StandsAt bytes.now at (event_line processors event) }
    requires after { next ≡ at + length (event_line processors event) }
{
    let text = bytes.get(at..next)?;
    let line = KeptLine::new(processors, event, text)?;
    Some(ReadLine { line })
}

impl LineReader {
    pub fn new(processors: u16) -> LineReader
        ensures { result ≡ processors }
    {
        LineReader {
            processors,
            lines: [None; LINES],
        }
    }

    // The event at this place, where its line was read before.
    fn again(&self, place: usize, bytes: &[u8], at: usize) -> Option<(Event, usize)>
        requires { place < 128 }
        ensures few { self.now < 2 ^ 16 }
        ensures spelling { IfSome result (λ r. IsSpelling self.now r.0) }
        ensures stands { IfSome result (λ r. StandsAt bytes.now at (event_line self.now r.0)) }
        ensures after { IfSome result (λ r. r.1 ≡ at + length (event_line self.now r.0)) }
    {
        match &self.lines[place] {
            Some(read) => again(self.processors, read, bytes, at),
            None => None,
        }
    }

    // The event at this place, whose line is kept.
    fn anew(&mut self, place: usize, bytes: &[u8], at: usize) -> Result<(Event, usize), TextError>
        requires { place < 128 }
        ensures spelling { IfOk result (λ r. IsSpelling self.old r.0) }
        ensures stands { IfOk result (λ r. StandsAt bytes.now at (event_line self.old r.0)) }
        ensures after { IfOk result (λ r. r.1 ≡ at + length (event_line self.old r.0)) }
        ensures inverse { (event : EventSpec) → IsSpelling self.old event → StandsAt bytes.now at (event_line self.old event) → result ≡ Ok (event, at + length (event_line self.old event)) }
        ensures refused_at { IfErr result (λ e. e.at ≡ at) }
        ensures refused { IfErr result (λ e. (event : EventSpec) → IsSpelling self.old event → ¬ (StandsAt bytes.now at (event_line self.old event))) }
        ensures stays { self.new ≡ self.old }
    {
        let read = read_event(self.processors, bytes, at);
        if let Ok((event, next)) = read {
            self.lines[place] = kept(self.processors, bytes, at, event, next);
        }
        read
    }

    /// The event whose line stands in `bytes` from `at` on, and the place behind its line end, as
    /// [`trace_text::read_event`] reads it. Constant time, no memory.
    ///
    /// # Errors
    ///
    /// `TextError` where no line of an event stands there.
    pub fn read(&mut self, bytes: &[u8], at: usize) -> Result<(Event, usize), TextError>
        // What is read has a spelling, and it stands there.
        ensures spelling { IfOk result (λ r. IsSpelling self.old r.0) }
        ensures stands { IfOk result (λ r. StandsAt bytes.now at (event_line self.old r.0)) }
        ensures after { IfOk result (λ r. r.1 ≡ at + length (event_line self.old r.0)) }

        // Each spelling is read.
        ensures inverse { (event : EventSpec) → IsSpelling self.old event → StandsAt bytes.now at (event_line self.old event) → result ≡ Ok (event, at + length (event_line self.old event)) }

        // What is refused is no spelling.
        ensures refused_at { IfErr result (λ e. e.at ≡ at) }
        ensures refused { IfErr result (λ e. (event : EventSpec) → IsSpelling self.old event → ¬ (StandsAt bytes.now at (event_line self.old event))) }

        // The platform stays.
        ensures stays { self.new ≡ self.old }
        ensures few { self.old < 2 ^ 16 }
    {
        text_laws();
        let place = place_of(bytes, at);
        match self.again(place, bytes, at) {
            Some(read) => Ok(read),
            None => self.anew(place, bytes, at),
        }
    }
}

// The event at this place, where this line stands there.
fn again(processors: u16, read: &ReadLine, bytes: &[u8], at: usize) -> Option<(Event, usize)>
    ensures spelling { IfSome result (λ r. IsSpelling processors r.0) }
    ensures stands { IfSome result (λ r. StandsAt bytes.now at (event_line processors r.0)) }
    ensures after { IfSome result (λ r. r.1 ≡ at + length (event_line processors r.0)) }
{
    if read.line.processors == processors && read.line.stands_at(bytes, at) {
        Some((read.line.event, at + read.line.len))
    } else {
        None
    }
}
