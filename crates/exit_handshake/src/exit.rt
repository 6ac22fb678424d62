ghost use Rattle.std.specs.Prelude.{◌≡◌, ◌<◌, ◌≤◌, ◌^◌, None};
ghost use Rattle.sync_words.specs.Steps.{found_of, next_below, Accepts, IsWantWithin};
ghost use Rattle.exit_handshake.specs.Desks.{desks_of};
ghost use Rattle.exit_handshake.specs.Exit.{is_ap, ap_count, after_rounds, to_releases, to_released, to_dismissals, to_dismissed, want_of, go, taken, left_of, IsExit, exit_of};

use crate::desks::Desks;
use crate::wanted::wants;
use std::marker::Model;
use sync_words::{Access, Applied, Hand, LOCKED, Label, Row, Want, WordId};

/// How a BSP lets the APs of its session go: it gives each its desk and waits for as many answers, lets each leave and waits
/// for as many answers, gives the chair back where it was elected, and opens the words for the next session.
#[derive(Drop)]
pub struct Exit {
    processors: u16,
    me: u16,
    held: Desks,
    elected: bool,
    row: Row,
}

impl Model for Exit {
    ghost use Rattle.exit_handshake.specs.Exit.{ExitPosition, IsExit};

    ghost Value = { ExitPosition };

    ghost view = { λ e. record { processors = e.processors; me = e.me; held = e.held; elected = e.elected; row = e.row } };

    ghost invariant = { λ e. IsExit (record { processors = e.processors; me = e.me; held = e.held; elected = e.elected; row = e.row }) };
}

impl Exit {
    /// The beginning of an exit by the processor `me` of 1 to 64. Bit j of `held` is 1 where the desk of processor j is held now:
    /// the APs are the processors of these bits other than `me`. `elected` says that the policy elects the BSP. The time is at
    /// most proportional to the number of processors.
    pub fn new(n: u16, me: u16, held: u64, elected: bool) -> Exit
        requires few { n ≤ 64 }
        requires own { me < n }
        requires within { held < 2 ^ n }
        ensures { result ≡ exit_of n me (desks_of held) elected }
    {
        let mut exit = Exit {
            processors: n,
            me,
            held: Desks::of(held),
            elected,
            row: Row::AwaitSessionEnd,
        };
        exit.row = exit.releases(0);
        exit
    }

    /// What the BSP wants next: an access in bounds.
    #[tactic(auto, using(crate::proofs::ExitLemmas::exit_within))]
    pub fn want(&self) -> Want
        requires { left_of self.now.row ≡ None }
        ensures value { result ≡ want_of self.now.row self.now }
        ensures within { IsWantWithin self.now.processors result }
    {
        match self.row {
            Row::Release(cpu) => Want::Access {
                word: WordId::Run(cpu),
                access: Access::Up,
                hand: Hand::Give(cpu),
            },
            Row::AwaitReleased(_) | Row::AwaitDismissed(_) => wants(
                WordId::Run(self.me),
                Access::Down,
            ),
            Row::Dismiss(cpu) => wants(WordId::Run(cpu), Access::Up),
            Row::GiveBsp => Want::Access {
                word: WordId::Bsp,
                access: Access::Put(LOCKED),
                hand: Hand::Give(self.processors),
            },
            Row::LeaveInsync => wants(WordId::Insync, Access::Put(0)),
            Row::UnlockCounter => wants(WordId::Counter, Access::Put(0)),
            _ => Want::Off,
        }
    }

    // What the event at the row says, and the next row.
    fn taken(&self, found: u32) -> (Label, Row)
        ensures label { result.0 ≡ (taken self.now.row self.now found).label }
        ensures after { go self.now result.1 ≡ (taken self.now.row self.now found).after }
    {
        match self.row {
            Row::Release(cpu) => (Label::Release(cpu), self.releases(cpu + 1)),
            Row::AwaitReleased(left) => (Label::Silent, self.released(left.saturating_sub(1))),
            Row::Dismiss(cpu) => (Label::Silent, self.dismissals(cpu + 1)),
            Row::AwaitDismissed(left) => (Label::Silent, self.dismissed(left.saturating_sub(1))),
            Row::GiveBsp => (Label::Silent, Row::LeaveInsync),
            Row::LeaveInsync => (Label::Silent, Row::UnlockCounter),
            Row::UnlockCounter => (Label::End, Row::AwaitSessionEnd),
            row => (Label::Silent, row),
        }
    }

    /// Goes on after the wanted access was accepted, and gives the label of that event. The time is at most proportional to
    /// the number of processors.
    pub fn take(&mut self, applied: Applied) -> Label
        requires goes_on { left_of self.old.row ≡ None }
        requires accepted { Accepts (want_of self.old.row self.old) applied }
        ensures label { result ≡ (taken self.old.row self.old (found_of applied)).label }
        ensures after { self.new ≡ (taken self.old.row self.old (found_of applied)).after }
    {
        let (label, row) = self.taken(applied.found());
        self.row = row;
        label
    }

    /// None while the exit goes on; else the row that comes next, `AwaitSessionEnd`.
    pub fn left(&self) -> Option<Row>
        ensures value { result ≡ left_of self.now.row }
        ensures kept { IsExit self.now }
    {
        match self.row {
            Row::Release(_) | Row::AwaitReleased(_) | Row::Dismiss(_) | Row::AwaitDismissed(_) =>
                None,
            Row::GiveBsp | Row::LeaveInsync | Row::UnlockCounter => None,
            row => Some(row),
        }
    }

    // The first round: the next AP to release, from a processor on.
    fn releases(&self, from: u16) -> Row
        ensures { result ≡ to_releases self.now from }
    {
        match self.next_ap(from) {
            Some(cpu) => Row::Release(cpu),
            None => self.released(self.ap_count()),
        }
    }

    // The first round: so many APs have still to answer.
    fn released(&self, left: u32) -> Row
        ensures { result ≡ to_released self.now left }
    {
        if left == 0 {
            self.dismissals(0)
        } else {
            Row::AwaitReleased(left)
        }
    }

    // The second round: the next AP to dismiss, from a processor on.
    fn dismissals(&self, from: u16) -> Row
        ensures { result ≡ to_dismissals self.now from }
    {
        match self.next_ap(from) {
            Some(cpu) => Row::Dismiss(cpu),
            None => self.dismissed(self.ap_count()),
        }
    }

    // The second round: so many APs have still to leave.
    fn dismissed(&self, left: u32) -> Row
        ensures { result ≡ to_dismissed self.now left }
    {
        if left == 0 {
            self.after_rounds()
        } else {
            Row::AwaitDismissed(left)
        }
    }

    fn after_rounds(&self) -> Row
        ensures { result ≡ after_rounds self.now.elected }
    {
        if self.elected {
            Row::GiveBsp
        } else {
            Row::LeaveInsync
        }
    }

    fn next_ap(&self, from: u16) -> Option<u16>
        ensures { result ≡ next_below self.now.processors (is_ap self.now) from }
    {
        (from..self.processors).find(|cpu| self.is_ap(*cpu))
    }

    fn ap_count(&self) -> u32
        ensures { result ≡ ap_count self.now }
    {
        (0..self.processors).filter(|cpu| self.is_ap(*cpu)).count() as u32
    }

    fn is_ap(&self, cpu: u16) -> bool
        ensures { result ≡ is_ap self.now cpu }
    {
        cpu != self.me && self.held.holds(cpu)
    }
}
