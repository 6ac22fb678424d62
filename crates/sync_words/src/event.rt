ghost use Rattle.std.specs.Prelude.{Some};
ghost use Rattle.sync_words.specs.Texts.{actor_text, event_text};

use crate::access::Access;
use crate::label::Label;
use crate::word::WordId;
use std::fmt;

/// One accepted access to a shared word.
#[derive(Clone, Copy, Debug, PartialEq, Eq)]
pub struct Event {
    /// The processor, or the number of processors for the chipset.
    pub actor: u16,
    pub word: WordId,
    pub access: Access,
    /// The number that the word had, at most [`crate::LOCKED`].
    pub found: u32,
    /// What it says of the actor's course.
    pub label: Label,
}

/// What changes hands where an access changes its word: a desk by its processor's number, or the
/// chair by the number of processors.
#[derive(Clone, Copy, PartialEq, Eq)]
pub enum Hand {
    /// Nothing changes hands.
    Nothing,
    /// The actor lays it on the word.
    Give(u16),
    /// The actor takes it from the word.
    Take(u16),
}

/// What an actor wants to do next.
#[derive(Clone, Copy, PartialEq, Eq)]
pub enum Want {
    /// An access to a word, with what changes hands at it.
    Access {
        word: WordId,
        access: Access,
        hand: Hand,
    },
    /// Nothing any more.
    Off,
}

/// An event as the one line that a report has of it, where there are `processors` processors: the actor
/// with that number is the chipset.
#[derive(Clone, Copy)]
pub struct EventLine {
    pub processors: u16,
    pub event: Event,
}

/// Writes actor, word, access, the number found and the label with one space between, and no line end.
impl fmt::Display for EventLine {
    ghost output = { λ line. Some (event_text line.processors line.event) };

    fn fmt<W: fmt::Write>(&self, f: &mut fmt::Formatter<W>) -> fmt::Result {
        let Event {
            actor,
            word,
            access,
            found,
            label,
        } = self.event;
        let actor = Actor {
            processors: self.processors,
            number: actor,
        };
        write!(f, "{actor} {word} {access} {found} {label}")
    }
}

// Who acted, where there are so many processors.
#[derive(Clone, Copy)]
struct Actor {
    processors: u16,
    number: u16,
}

impl fmt::Display for Actor {
    ghost output = { λ actor. Some (actor_text actor.processors actor.number) };

    fn fmt<W: fmt::Write>(&self, f: &mut fmt::Formatter<W>) -> fmt::Result {
        let number = self.number;
        if number == self.processors {
            f.write_str("chip")
        } else {
            write!(f, "p{number}")
        }
    }
}
