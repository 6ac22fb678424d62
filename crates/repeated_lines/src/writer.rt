ghost use Rattle.std.specs.Prelude.{◌≡◌, ◌≤◌, ◌++◌, drop, length, IfSome, OnOk, OnErr};
ghost use Rattle.sync_words.specs.Texts.{event_line};
ghost use Rattle.repeated_lines.specs.Parts.{opening, ending};

use crate::ending::{ROOM, put_ending, put_text};
use crate::kept::{KeptLine, WRITTEN};
use crate::opening::{KeptOpening, OPENINGS, opening_of};
use crate::place::{may_come_again, place_of};
use crate::same::is_same;
use smm_base::NoMemory;
use std::marker::Model;
use sync_words::Event;
use trace_text::write_event;

/// A writer of the lines of events on a platform of so many processors, as which contracts see it.
#[derive(Drop)]
pub struct LineWriter {
    processors: u16,
    lines: [Option<KeptLine>; 256],
    openings: [Option<KeptOpening>; 256],
}

impl Model for LineWriter {
    ghost use Rattle.std.specs.Prelude.{ℕ};

    ghost Value = { ℕ };

    ghost view = { λ w. w.processors };
}

impl LineWriter {
    pub fn new(processors: u16) -> LineWriter
        ensures { result ≡ processors }
    {
        LineWriter {
            processors,
            lines: [None; WRITTEN],
            openings: [None; OPENINGS],
        }
    }

    // The line of an event, where it was written before.
    fn again<'a>(&'a self, event: &Event) -> Option<&'a [u8]>
        ensures { IfSome result (λ line. line.now ≡ event_line self.now event.now) }
    {
        match &self.lines[place_of(event)] {
            Some(line) => again(self.processors, line, event),
            None => None,
        }
    }

    // Appends the line of an event, and keeps it.
    #[inline(never)]
    fn anew(&mut self, event: &Event, out: &mut Vec<u8>) -> Result<(), NoMemory>
        ensures gains_line { OnOk result (out.new.items ≡ out.old.items ++ event_line self.old event.now) }
        ensures kept { OnErr result (out.new.items ≡ out.old.items) }
        ensures stays { self.new ≡ self.old }
    {
        let before = out.len();
        write_event(self.processors, event, out)?;
        self.lines[place_of(event)] = KeptLine::new(self.processors, *event, &out[before..]);
        Ok(())
    }

    // The opening of an event's line, where it was written before.
    fn opening<'a>(&'a self, event: &Event) -> Option<&'a [u8]>
        ensures opens { IfSome result (λ text. text.now ≡ opening self.now event.now) }
        ensures short { IfSome result (λ text. length text.now ≤ 64) }
    {
        match &self.openings[place_of(event)] {
            Some(kept) => kept.text(self.processors, event),
            None => None,
        }
    }

    // Appends the line of an event, and keeps its opening, where the ending has so many bytes.
    #[inline(never)]
    fn open_anew(&mut self, event: &Event, rest: usize, out: &mut Vec<u8>) -> Result<(), NoMemory>
        requires { length (ending event.now.label) ≡ rest }
        ensures gains_line { OnOk result (out.new.items ≡ out.old.items ++ event_line self.old event.now) }
        ensures kept { OnErr result (out.new.items ≡ out.old.items) }
        ensures stays { self.new ≡ self.old }
    {
        let before = out.len();
        write_event(self.processors, event, out)?;
        self.openings[place_of(event)] = opening_of(self.processors, event, &out[before..], rest);
        Ok(())
    }

    // Appends the line of an event, whose ending stands in `line` from `start` on.
    fn write_opened(
        &mut self,
        event: &Event,
        line: &mut [u8; 160],
        start: usize,
        out: &mut Vec<u8>,
    ) -> Result<(), NoMemory>
        requires start { (64 ≤ start) × (start ≤ 160) }
        requires ending { drop start line.old ≡ ending event.now.label }
        ensures gains_line { OnOk result (out.new.items ≡ out.old.items ++ event_line self.old event.now) }
        ensures kept { OnErr result (out.new.items ≡ out.old.items) }
        ensures stays { self.new ≡ self.old }
    {
        match self.opening(event) {
            Some(opening) => {
                let start = put_text(opening, line, start);
                out.extend_from_slice(&line[start..])?;
                Ok(())
            }
            None => self.open_anew(event, ROOM - start, out),
        }
    }

    // Appends the line of an event with a job.
    fn write_job(&mut self, event: &Event, out: &mut Vec<u8>) -> Result<(), NoMemory>
        ensures gains_line { OnOk result (out.new.items ≡ out.old.items ++ event_line self.old event.now) }
        ensures kept { OnErr result (out.new.items ≡ out.old.items) }
        ensures stays { self.new ≡ self.old }
    {
        let mut line = [b'\n'; ROOM];
        match put_ending(&event.label, &mut line) {
            Some(start) => self.write_opened(event, &mut line, start, out),
            None => self.anew(event, out),
        }
    }

    /// Appends the one line of an event, with its line end, as [`trace_text::write_event`] writes it. Takes no memory but what
    /// `out` grows by.
    ///
    /// # Errors
    ///
    /// `NoMemory` where `out` can't grow. Then it holds what it held.
    pub fn write(&mut self, event: &Event, out: &mut Vec<u8>) -> Result<(), NoMemory>
        ensures gains_line { OnOk result (out.new.items ≡ out.old.items ++ event_line self.old event.now) }
        ensures kept { OnErr result (out.new.items ≡ out.old.items) }
        ensures stays { self.new ≡ self.old }
    {
        if !may_come_again(&event.label) {
            return self.write_job(event, out);
        }
        match self.again(event) {
            Some(line) => {
                out.extend_from_slice(line)?;
                Ok(())
            }
            None => self.anew(event, out),
        }
    }
}

// The line of an event, where this is it.
fn again<'a>(processors: u16, line: &'a KeptLine, event: &Event) -> Option<&'a [u8]>
    ensures { IfSome result (λ text. text.now ≡ event_line processors event.now) }
{
    if line.processors == processors && is_same(&line.event, event) {
        Some(line.text())
    } else {
        None
    }
}
