ghost use Rattle.std.specs.Prelude.{◌≡◌, ◌<◌, ◌≤◌, ◌≢◌, None, IfSome};
ghost use Rattle.sync_words.specs.Steps.{Accepts, IsWantWithin, found_of, next_below};
ghost use Rattle.arrival.specs.Gather.{gather_of, have_come, is_other, left_of, taken, to_missing, want_of, IsMissingRow};

use crate::rows::{is_last_look, look_at, want};
use cpu_table::Setup;
use std::marker::Model;
use sync_words::{Access, Applied, Label, Row, Want, WordId};

/// How the BSP gathers the others before it closes the session, in the traditional mode: a round of looks for all to have come, an
/// interrupt to each processor that hasn't reported, and a second round. It ends before the row that marks the session as about to be
/// closed.
#[derive(Drop)]
pub struct Gather {
    processors: u16,
    first_looks: u32,
    second_looks: u32,
    me: u16,
    row: Row,
    blocked: u32,
}

impl Model for Gather {
    ghost use Rattle.arrival.specs.Gather.{GatherPosition, IsGather};

    ghost Value = { GatherPosition };

    ghost use Rattle.arrival.specs.Views.{gather_view};

    ghost view = { gather_view };

    ghost invariant = { λ g. IsGather (gather_view g) };
}

impl Gather {
    /// The gathering by the processor `me`, which is below the number of processors, at its first row.
    pub fn new(setup: &Setup, me: u16) -> Gather
        requires { me < setup.now.processors }
        ensures { result ≡ gather_of setup.now.processors setup.now.t1 setup.now.t2 me }
    {
        Gather {
            processors: setup.processors,
            first_looks: setup.t1,
            second_looks: setup.t2,
            me,
            row: Row::LookAtExcept,
            blocked: 0,
        }
    }

    /// The row of another part that comes next, or none while the gathering goes on.
    pub fn left(&self) -> Option<Row>
        ensures { result ≡ left_of self.now.row }
    {
        match self.row {
            Row::LookAtExcept
            | Row::GatherFirst(_)
            | Row::FindMissing(_)
            | Row::SignalMissing(_)
            | Row::GatherSecond(_) => None,
            next => Some(next),
        }
    }

    /// What the BSP wants, while the gathering goes on. Constant time.
    pub fn want(&self) -> Want
        requires { left_of self.now.row ≡ None }
        ensures row { result ≡ want_of self.now.row self.now }
        ensures within { IsWantWithin self.now.processors result }
    {
        match self.row {
            Row::LookAtExcept => look_at(WordId::Except),
            Row::GatherFirst(_) | Row::GatherSecond(_) => look_at(WordId::Counter),
            Row::FindMissing(cpu) => look_at(WordId::Present(cpu)),
            Row::SignalMissing(cpu) => want(WordId::Pend(cpu), Access::Signal),
            _ => Want::Off,
        }
    }

    /// Goes on after the wanted access was accepted, and gives what the event says. Constant time.
    pub fn take(&mut self, applied: Applied) -> Label
        requires goes_on { left_of self.old.row ≡ None }
        requires accepted { Accepts (want_of self.old.row self.old) applied }
        ensures label { result ≡ (taken self.old.row self.old (found_of applied)).label }
        ensures after { self.new ≡ (taken self.old.row self.old (found_of applied)).after }
    {
        let found = applied.found();
        let all_came = all_have_come(self.processors, self.blocked, found);
        match self.row {
            Row::LookAtExcept => {
                self.blocked = found;
                self.row = Row::GatherFirst(0);
                Label::Gather(found)
            }
            Row::GatherFirst(_) | Row::GatherSecond(_) if all_came => {
                self.row = Row::MarkInsync;
                Label::Ready(found)
            }
            Row::GatherFirst(looks) if is_last_look(looks, self.first_looks) => {
                self.row = missing_row(self.processors, self.me, 0);
                Label::Expire(1)
            }
            Row::GatherFirst(looks) => {
                self.row = Row::GatherFirst(looks + 1);
                Label::Silent
            }
            Row::FindMissing(cpu) if found == 0 => {
                self.row = Row::SignalMissing(cpu);
                Label::Silent
            }
            Row::FindMissing(cpu) | Row::SignalMissing(cpu) => {
                self.row = missing_row(self.processors, self.me, cpu + 1);
                Label::Silent
            }
            Row::GatherSecond(looks) if is_last_look(looks, self.second_looks) => {
                self.row = Row::MarkInsync;
                Label::Expire(2)
            }
            Row::GatherSecond(looks) => {
                self.row = Row::GatherSecond(looks + 1);
                Label::Silent
            }
            _ => Label::Silent,
        }
    }
}

// Have all come, where so many are blocked and so many are counted in?
fn all_have_come(processors: u16, blocked: u32, counted: u32) -> bool
    ensures { result ≡ have_come processors blocked counted }
{
    u64::from(counted) + u64::from(blocked) >= u64::from(processors)
}

// The row of the next processor from `from` on other than `me`, or the second round where there is none.
fn missing_row(processors: u16, me: u16, from: u16) -> Row
    ensures row { result ≡ to_missing processors me from }
    ensures within { IsMissingRow processors me result }
{
    match next_other(processors, me, from) {
        Some(cpu) => Row::FindMissing(cpu),
        None => Row::GatherSecond(0),
    }
}

// The next processor from `from` on other than `me`.
fn next_other(processors: u16, me: u16, from: u16) -> Option<u16>
    ensures least { result ≡ next_below processors (is_other me) from }
    ensures within { IfSome result (λ cpu. (cpu < processors) × (cpu ≢ me)) }
{
    (from..processors).find(|cpu| *cpu != me)
}
