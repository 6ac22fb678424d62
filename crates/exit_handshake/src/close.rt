ghost use Rattle.std.specs.Prelude.{◌≡◌, ◌<◌, ◌≤◌, ◌^◌, None};
ghost use Rattle.sync_words.specs.Steps.{found_of, next_below, Accepts, IsWantWithin};
ghost use Rattle.exit_handshake.specs.Desks.{desks_of};
ghost use Rattle.exit_handshake.specs.Close.{lacks, to_desks, to_reports, want_of, go, taken, left_of, IsClose, close_of};

use crate::desks::Desks;
use crate::wanted::wants;
use std::marker::Model;
use sync_words::{Access, Applied, Hand, Label, Row, Want, WordId};

/// How a BSP closes its session: it marks `insync`, locks the counter, waits for the reports of those that were counted, and
/// takes the desks that it doesn't hold yet.
#[derive(Drop)]
pub struct Close {
    processors: u16,
    me: u16,
    held: Desks,
    relaxed: bool,
    row: Row,
}

impl Model for Close {
    ghost use Rattle.exit_handshake.specs.Close.{ClosePosition, IsClose};

    ghost Value = { ClosePosition };

    ghost view = { λ c. record { processors = c.processors; me = c.me; held = c.held; relaxed = c.relaxed; row = c.row } };

    ghost invariant = { λ c. IsClose (record { processors = c.processors; me = c.me; held = c.held; relaxed = c.relaxed; row = c.row }) };
}

impl Close {
    /// The beginning of a close by the processor `me` of 1 to 64. Bit j of `held` is 1 where the desk of processor j is held now,
    /// and `relaxed` says that the session was served already. Constant time.
    pub fn new(n: u16, me: u16, held: u64, relaxed: bool) -> Close
        requires few { n ≤ 64 }
        requires own { me < n }
        requires within { held < 2 ^ n }
        ensures { result ≡ close_of n me (desks_of held) relaxed }
    {
        Close {
            processors: n,
            me,
            held: Desks::of(held),
            relaxed,
            row: Row::MarkInsync,
        }
    }

    /// What the BSP wants next: an access in bounds.
    #[tactic(auto, using(crate::proofs::CloseLemmas::close_within))]
    pub fn want(&self) -> Want
        requires { left_of self.now.row ≡ None }
        ensures value { result ≡ want_of self.now.row self.now }
        ensures within { IsWantWithin self.now.processors result }
    {
        match self.row {
            Row::MarkInsync => wants(WordId::Insync, Access::Put(1)),
            Row::LockCounter => wants(WordId::Counter, Access::Lock),
            Row::AwaitReports(_) => wants(WordId::Run(self.me), Access::Down),
            Row::TakeDesk(cpu) => Want::Access {
                word: WordId::Present(cpu),
                access: Access::Claim(1, 2),
                hand: Hand::Take(cpu),
            },
            _ => Want::Off,
        }
    }

    // What the event at the row says by the number found, and the next row.
    fn taken(&self, found: u32) -> (Label, Row)
        ensures label { result.0 ≡ (taken self.now.row self.now found).label }
        ensures after { go self.now result.1 ≡ (taken self.now.row self.now found).after }
    {
        match self.row {
            Row::MarkInsync => (Label::Silent, Row::LockCounter),
            Row::LockCounter => (Label::Close(found), self.reports(found.saturating_sub(1))),
            Row::AwaitReports(left) => (Label::Silent, self.reports(left.saturating_sub(1))),
            Row::TakeDesk(cpu) => (Label::Silent, self.desks(cpu + 1)),
            row => (Label::Silent, row),
        }
    }

    /// Goes on by the answer to the wanted access, and gives the label of that event. The time is at most proportional to the
    /// number of processors.
    pub fn take(&mut self, applied: Applied) -> Label
        requires goes_on { left_of self.old.row ≡ None }
        requires accepted { Accepts (want_of self.old.row self.old) applied }
        ensures label { result ≡ (taken self.old.row self.old (found_of applied)).label }
        ensures after { self.new ≡ (taken self.old.row self.old (found_of applied)).after }
    {
        let (label, row) = self.taken(applied.found());
        self.row = row;
        label
    }

    /// None while the close goes on; else the row that comes next, `Serve` in the traditional mode and `LeaveInside` in the
    /// relaxed one.
    pub fn left(&self) -> Option<Row>
        ensures value { result ≡ left_of self.now.row }
        ensures kept { IsClose self.now }
    {
        match self.row {
            Row::MarkInsync | Row::LockCounter | Row::AwaitReports(_) | Row::TakeDesk(_) => None,
            row => Some(row),
        }
    }

    // So many reports are still to come.
    fn reports(&self, left: u32) -> Row
        ensures { result ≡ to_reports self.now left }
    {
        if left == 0 {
            self.desks(0)
        } else {
            Row::AwaitReports(left)
        }
    }

    // The next desk to take, from a processor on.
    fn desks(&self, from: u16) -> Row
        ensures { result ≡ to_desks self.now from }
    {
        match self.next_lacked(from) {
            Some(cpu) => Row::TakeDesk(cpu),
            None if self.relaxed => Row::LeaveInside,
            None => Row::Serve,
        }
    }

    fn next_lacked(&self, from: u16) -> Option<u16>
        ensures { result ≡ next_below self.now.processors (lacks self.now) from }
    {
        (from..self.processors).find(|cpu| self.lacks(*cpu))
    }

    fn lacks(&self, cpu: u16) -> bool
        ensures { result ≡ lacks self.now cpu }
    {
        cpu != self.me && !self.held.holds(cpu)
    }
}
