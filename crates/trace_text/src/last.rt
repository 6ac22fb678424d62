ghost use Rattle.std.specs.Prelude.{◌≡◌, ◌+◌, length, Some, IfSome, IfNone};
ghost use Rattle.std.specs.Option.{option_map};
ghost use Rattle.trace_text.specs.Last.{totals_text, last_line, AreNumbers, complete_of, stripped, unserved_of, sessions_of, events_of, totals_of, last_reading};
ghost use Rattle.trace_text.specs.Spelling.{StandsAt};
ghost use Rattle.trace_text.specs.declared.last.Totals.{Totals as TotalsSpec};

use crate::field::Field;
use crate::line::line_at;
use crate::split::split_at_space;
use std::{fmt, str};

/// What the last line of a trace tells: whether the run is complete, and how many events, ended sessions and
/// unserved waves it has.
#[derive(Clone, Copy, Debug, PartialEq, Eq)]
pub struct Totals {
    pub complete: bool,
    pub events: u64,
    pub sessions: u64,
    pub unserved: u64,
}

/// Writes the last line, without its line end.
impl fmt::Display for Totals {
    ghost output = { λ totals. Some (totals_text totals.complete totals.events totals.sessions totals.unserved) };

    fn fmt<W: fmt::Write>(&self, f: &mut fmt::Formatter<W>) -> fmt::Result {
        let Totals {
            complete,
            events,
            sessions,
            unserved,
        } = *self;
        let word = if complete { "complete" } else { "unfinished" };
        write!(
            f,
            "{word} events {events} sessions {sessions} unserved {unserved}"
        )
    }
}

// Is the run complete, by the first word?
fn read_complete(text: &str) -> Option<bool>
    ensures { result ≡ complete_of text.now }
{
    match text {
        "complete" => Some(true),
        "unfinished" => Some(false),
        _ => None,
    }
}

// What stands behind a text that begins so.
fn strip<'a>(name: &str, text: &'a str) -> Option<&'a str>
    ensures { option_map (λ rest. rest.now) result ≡ stripped name.now text.now }
{
    text.strip_prefix(name)
}

// The number of unserved waves, with its name.
fn read_unserved(text: &str) -> Option<u64>
    ensures { result ≡ unserved_of text.now }
{
    u64::read(strip("unserved ", text)?)
}

// The number of sessions with its name, and what follows it.
fn read_sessions(text: &str) -> Option<(u64, u64)>
    ensures { result ≡ sessions_of text.now }
{
    let (sessions, rest) = split_at_space(strip("sessions ", text)?)?;
    Some((u64::read(sessions)?, read_unserved(rest)?))
}

// The number of events with its name, and what follows it.
fn read_events(text: &str) -> Option<(u64, (u64, u64))>
    ensures { result ≡ events_of text.now }
{
    let (events, rest) = split_at_space(strip("events ", text)?)?;
    Some((u64::read(events)?, read_sessions(rest)?))
}

// What a last line tells, without its line end.
fn read_text(text: &str) -> Option<Totals>
    ensures { result ≡ totals_of text.now }
{
    let (complete, rest) = split_at_space(text)?;
    let complete = read_complete(complete)?;
    let (events, (sessions, unserved)) = read_events(rest)?;
    Some(Totals {
        complete,
        events,
        sessions,
        unserved,
    })
}

// The same of bytes.
fn read_line(line: &[u8]) -> Option<Totals>
    ensures { result ≡ totals_of line.now }
{
    match str::from_utf8(line) {
        Ok(text) => read_text(text),
        Err(_) => None,
    }
}

// The last line that starts at a place, and the place behind its line end.
fn read_at(bytes: &[u8], at: usize) -> Option<(Totals, usize)>
    ensures { result ≡ last_reading bytes.now at }
{
    let line = line_at(bytes, at)?;
    let totals = read_line(line)?;
    Some((totals, at + line.len() + 1))
}

/// The last line of a trace that stands in `bytes` from `at` on, and the place behind its line end. None where
/// no last line stands there. Constant time, no memory.
pub fn read_last(bytes: &[u8], at: usize) -> Option<(Totals, usize)>
    // What is read stands there.
    ensures stands { IfSome result (λ r. StandsAt bytes.now at (last_line r.0)) }
    ensures after { IfSome result (λ r. r.1 ≡ at + length (last_line r.0)) }

    // Each last line is read.
    ensures inverse { (totals : TotalsSpec) → AreNumbers totals → StandsAt bytes.now at (last_line totals) → result ≡ Some (totals, at + length (last_line totals)) }

    // Where none is read, there is none.
    ensures refused { IfNone result ((totals : TotalsSpec) → AreNumbers totals → ¬ (StandsAt bytes.now at (last_line totals))) }
{
    read_at(bytes, at)
}
