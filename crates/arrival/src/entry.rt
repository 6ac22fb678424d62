ghost use Rattle.std.specs.Prelude.{◌≡◌, ◌<◌, None};
ghost use Rattle.sync_words.specs.Steps.{Accepts, IsWantWithin, found_of};
ghost use Rattle.arrival.specs.Entry.{after_arrival, entry_of, left_of, taken, want_of};

use crate::rows::{look_at, want};
use cpu_table::{Policy, Setup};
use std::marker::Model;
use sync_words::{Access, Applied, Hand, LOCKED, Label, Row, Want, WordId};

/// The entry of a processor's visit: it looks whether there is something to serve, counts itself in, and becomes the BSP or not.
/// It ends before the row that says that the BSP is at work, the first look of an AP for the BSP, or the wait for the session
/// to end.
#[derive(Drop)]
pub struct Entry {
    processors: u16,
    policy: Policy,
    me: u16,
    row: Row,
    source: u32,
    inside: u32,
}

impl Model for Entry {
    ghost use Rattle.arrival.specs.Entry.{EntryPosition, IsEntry};

    ghost Value = { EntryPosition };

    ghost use Rattle.arrival.specs.Views.{entry_view};

    ghost view = { entry_view };

    ghost invariant = { λ e. IsEntry (entry_view e) };
}

impl Entry {
    /// The entry of the processor `me`, which is below the number of processors, at its first row.
    pub fn new(setup: &Setup, me: u16) -> Entry
        requires { me < setup.now.processors }
        ensures { result ≡ entry_of setup.now.processors setup.now.policy me }
    {
        Entry {
            processors: setup.processors,
            policy: setup.policy,
            me,
            row: Row::LookAtSource,
            source: 0,
            inside: 0,
        }
    }

    /// The row of another part that comes next, or none while the entry goes on.
    pub fn left(&self) -> Option<Row>
        ensures { result ≡ left_of self.now.row }
    {
        match self.row {
            Row::LookAtSource | Row::LookAtInside | Row::CountIn | Row::ClaimBsp | Row::LookAtBsp =>
                None,
            next => Some(next),
        }
    }

    /// What the processor wants, while the entry goes on. Constant time.
    pub fn want(&self) -> Want
        requires { left_of self.now.row ≡ None }
        ensures row { result ≡ want_of self.now.row self.now }
        ensures within { IsWantWithin self.now.processors result }
    {
        match self.row {
            Row::LookAtSource => look_at(WordId::Source),
            Row::LookAtInside => look_at(WordId::Inside),
            Row::CountIn => want(WordId::Counter, Access::Up),
            Row::ClaimBsp => Want::Access {
                word: WordId::Bsp,
                access: Access::Claim(LOCKED, self.me.into()),
                hand: Hand::Take(self.processors),
            },
            Row::LookAtBsp => look_at(WordId::Bsp),
            _ => Want::Off,
        }
    }

    /// Goes on after the wanted access was accepted, and gives what the event says. Constant time.
    pub fn take(&mut self, applied: Applied) -> Label
        requires goes_on { left_of self.old.row ≡ None }
        requires accepted { Accepts (want_of self.old.row self.old) applied }
        ensures label { result ≡ (taken self.old.row self.old (found_of applied)).label }
        ensures after { self.new ≡ (taken self.old.row self.old (found_of applied)).after }
    {
        let found = applied.found();
        match self.row {
            Row::LookAtSource => {
                self.source = found;
                self.row = Row::LookAtInside;
                Label::Silent
            }
            Row::LookAtInside if self.source == 0 && found == 0 => {
                self.row = Row::AwaitSessionEnd;
                Label::Turn
            }
            Row::LookAtInside => {
                self.inside = found;
                self.row = Row::CountIn;
                Label::Silent
            }
            Row::CountIn if found == LOCKED => {
                self.row = Row::AwaitSessionEnd;
                Label::Late
            }
            Row::CountIn => {
                self.row = row_after_arrival(self.inside, self.policy);
                Label::Arrive
            }
            Row::ClaimBsp if found == LOCKED => {
                self.row = Row::MarkInside;
                Label::Elect
            }
            Row::LookAtBsp if found == u32::from(self.me) => {
                self.row = Row::MarkInside;
                Label::Elect
            }
            Row::ClaimBsp | Row::LookAtBsp => {
                self.row = Row::AwaitInside(0);
                Label::Silent
            }
            _ => Label::Silent,
        }
    }
}

// Where a processor goes on that counted itself in, and found this number in `inside`.
fn row_after_arrival(inside: u32, policy: Policy) -> Row
    ensures { result ≡ after_arrival inside policy }
{
    if inside != 0 {
        return Row::AwaitInside(0);
    }
    match policy {
        Policy::Elected => Row::ClaimBsp,
        Policy::Fixed(_) => Row::LookAtBsp,
    }
}
