ghost use Rattle.std.specs.Prelude.{◌≡◌, ◌+◌, ◌<◌, ◌==◌, length, take, drop, position, Ok, IfOk, IfErr, IfSome};
ghost use Rattle.std.specs.Option.{option_map};
ghost use Rattle.sync_words.specs.Texts.{space, line_end, event_line};
ghost use Rattle.sync_words.specs.declared.event.Event.{Event as EventSpec};
ghost use Rattle.trace_text.specs.Readings.{pair_at, actor_of, after_access, after_word, after_actor, event_with, is_within, event_of, line_at, reading};
ghost use Rattle.trace_text.specs.Spelling.{IsSpelling, StandsAt};

use crate::access::is_of_word;
use crate::field::Field;
use crate::place::{is_word, read_actor};
use crate::split::split_at_space;
use crate::write::LINE;
use std::str;
use sync_words::{Access, Event, LOCKED, Label, WordId};

/// No event is spelled at this byte, counted from 0.
#[derive(Clone, Copy, Debug, PartialEq, Eq)]
pub struct TextError {
    pub at: usize,
}

// The number found and the label.
fn read_after_access(text: &str) -> Option<(u32, Label)>
    ensures { result ≡ after_access text.now }
{
    let (found, label) = split_at_space(text)?;
    Some((u32::read(found)?, Label::read(label)?))
}

// The access and what follows it.
fn read_after_word(text: &str) -> Option<(Access, (u32, Label))>
    ensures { result ≡ after_word text.now }
{
    let (access, rest) = split_at_space(text)?;
    Some((Access::read(access)?, read_after_access(rest)?))
}

// The word and what follows it.
fn read_after_actor(text: &str) -> Option<(WordId, (Access, (u32, Label)))>
    ensures { result ≡ after_actor text.now }
{
    let (word, rest) = split_at_space(text)?;
    Some((WordId::read(word)?, read_after_word(rest)?))
}

// The actor and what follows it, as an event.
fn read_parts(n: u16, text: &str) -> Option<Event>
    ensures { result ≡ option_map event_with (pair_at space (actor_of n) after_actor text.now) }
{
    let (actor, rest) = split_at_space(text)?;
    let actor = read_actor(n, actor)?;
    let (word, (access, (found, label))) = read_after_actor(rest)?;
    Some(Event {
        actor,
        word,
        access,
        found,
        label,
    })
}

// Is the event's word there, and are its numbers ones that a word holds?
fn is_within(n: u16, event: &Event) -> bool
    ensures { result ≡ is_within n event.now }
{
    is_word(n, event.word) && is_of_word(event.access) && event.found <= LOCKED
}

// The event that a text spells.
fn read_text(n: u16, text: &str) -> Option<Event>
    ensures { result ≡ event_of n text.now }
{
    match read_parts(n, text) {
        Some(event) if is_within(n, &event) => Some(event),
        _ => None,
    }
}

// The event that a line without its line end spells.
fn read_line(n: u16, line: &[u8]) -> Option<Event>
    ensures { result ≡ event_of n line.now }
{
    match str::from_utf8(line) {
        Ok(text) => read_text(n, text),
        Err(_) => None,
    }
}

// The bytes from a place on, as far as a line may reach.
fn near(bytes: &[u8], at: usize) -> &[u8]
    ensures { result.now ≡ take 128 (drop at bytes.now) }
{
    match bytes.get(at..) {
        Some(rest) => &rest[..rest.len().min(LINE)],
        None => &[],
    }
}

// Where the first line end stands.
fn find_line_end(bytes: &[u8]) -> Option<usize>
    ensures end { result ≡ position (λ byte. byte == line_end) bytes.now }
    ensures within { IfSome result (λ end. end < length bytes.now) }
{
    bytes.iter().position(|byte| *byte == b'\n')
}

/// The line that starts at a place, without its line end.
pub(crate) fn line_at(bytes: &[u8], at: usize) -> Option<&[u8]>
    ensures line { option_map (λ line. line.now) result ≡ line_at 128 bytes.now at }
    ensures within { IfSome result (λ line. at + length line.now < length bytes.now) }
{
    let near = near(bytes, at);
    let end = find_line_end(near)?;
    Some(&near[..end])
}

// The event whose line starts at a place, and the place behind its line end.
fn read_at(n: u16, bytes: &[u8], at: usize) -> Option<(Event, usize)>
    ensures { result ≡ reading n bytes.now at }
{
    let line = line_at(bytes, at)?;
    let event = read_line(n, line)?;
    Some((event, at + line.len() + 1))
}

/// The event whose line stands in `bytes` from `at` on, where there are `n` processors, and the place behind
/// its line end. Constant time, no memory.
///
/// # Errors
///
/// `TextError` where no line of an event stands there.
pub fn read_event(n: u16, bytes: &[u8], at: usize) -> Result<(Event, usize), TextError>
    // What is read has a spelling, and it stands there.
    ensures spelling { IfOk result (λ r. IsSpelling n r.0) }
    ensures stands { IfOk result (λ r. StandsAt bytes.now at (event_line n r.0)) }
    ensures after { IfOk result (λ r. r.1 ≡ at + length (event_line n r.0)) }

    // Each spelling is read.
    ensures inverse { (event : EventSpec) → IsSpelling n event → StandsAt bytes.now at (event_line n event) → result ≡ Ok (event, at + length (event_line n event)) }

    // What is refused is no spelling.
    ensures refused_at { IfErr result (λ e. e.at ≡ at) }
    ensures refused { IfErr result (λ e. (event : EventSpec) → IsSpelling n event → ¬ (StandsAt bytes.now at (event_line n event))) }
{
    match read_at(n, bytes, at) {
        Some(read) => Ok(read),
        None => Err(TextError { at }),
    }
}
