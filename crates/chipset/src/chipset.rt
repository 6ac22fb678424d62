ghost use Rattle.std.specs.Prelude.{◌≡◌, ◌<◌, ◌+◌, is_none};
ghost use Rattle.cpu_table.specs.Data.{data_of};
ghost use Rattle.cpu_table.specs.Waves.{blocked_in};
ghost use Rattle.sync_words.specs.Steps.{wants, IsWantWithin};
ghost use Rattle.chipset.specs.Bounds.{IsChipset};
ghost use Rattle.chipset.specs.Chipsets.{after_wave, first_chipset, off_row, raise_row, signal_in, taken_at_row, want_at_row, watched_row};

use crate::arrivals::{arrivals_of, count_blocked, signal_for};
use cpu_table::Setup;
use std::marker::Model;
use sync_words::{Access, BLOCKED, Hand, Label, OFF, Row, Want, WordId};

/// The chipset: it announces each wave, sends its interrupts and waits until it was served; after the last wave it turns all signals
/// off, and is off itself.
#[derive(Drop)]
pub struct Chipset {
    setup: Setup,
    // None where it is off.
    row: Option<Row>,
    // The wave that it announces, from 1.
    wave: u32,
}

impl Model for Chipset {
    ghost use Rattle.cpu_table.specs.Data.{data_of};
    ghost use Rattle.chipset.specs.Bounds.{IsChipset};
    ghost use Rattle.chipset.specs.Chipsets.{Chipset};

    ghost Value = { Chipset };

    ghost view = { λ c. record { setup = data_of c.setup; row = c.row; wave = c.wave } };

    ghost invariant = { λ c. IsChipset (record { setup = data_of c.setup; row = c.row; wave = c.wave }) };
}

impl Chipset {
    /// The chipset before its first wave.
    pub fn new(setup: Setup) -> Chipset
        ensures { result ≡ first_chipset (data_of setup) }
    {
        Chipset {
            setup,
            row: Some(Row::AnnounceBlocked),
            wave: 1,
        }
    }

    /// What it wants next: an access in bounds, nothing where it is off. The time is at most proportional to the number of processors.
    #[tactic(auto, using(crate::proofs::StepLemmas::chipset_within))]
    pub fn want(&self) -> Want
        ensures value { result ≡ want_at_row self.now.row self.now }
        ensures within { IsWantWithin self.now.setup.processors result }
    {
        match self.row {
            None => Want::Off,
            Some(Row::AnnounceBlocked) => wants(WordId::Except, Access::Put(self.blocked())),
            Some(Row::AnnounceWave) => wants(WordId::Source, Access::Put(self.wave)),
            Some(Row::RaiseWave(cpu)) => wants(WordId::Pend(cpu), Access::Raise(self.signal(cpu))),
            Some(Row::WatchSource(_)) => wants(WordId::Source, Access::Look),
            Some(Row::AwaitServed) => wants(WordId::Inside, Access::Await(0, 0)),
            Some(Row::RaiseOff(cpu)) => wants(WordId::Pend(cpu), Access::Raise(OFF)),
            _ => Want::Off,
        }
    }

    /// Goes on after the wanted access found this number, and gives what the event says.
    pub fn take(&mut self, found: u32) -> Label
        ensures label { result ≡ (taken_at_row self.old.row self.old found).label }
        ensures after { self.new ≡ (taken_at_row self.old.row self.old found).after }
    {
        let (label, row, wave) = self.taken(found);
        self.row = row;
        self.wave = wave;
        label
    }

    // What the event at the row says by the number found, the next row, and the wave that is announced then.
    fn taken(&self, found: u32) -> (Label, Option<Row>, u32)
        ensures label { result.0 ≡ (taken_at_row self.now.row self.now found).label }
        ensures after { record self.now { row = result.1; wave = result.2 } ≡ (taken_at_row self.now.row self.now found).after }
    {
        let wave = self.wave;
        match self.row {
            Some(Row::AnnounceBlocked) => (
                Label::Excepted(self.blocked()),
                Some(Row::AnnounceWave),
                wave,
            ),
            Some(Row::AnnounceWave) => (Label::Wave(wave), Some(self.raise_from(0)), wave),
            Some(Row::RaiseWave(cpu)) => (Label::Silent, Some(self.raise_from(cpu + 1)), wave),
            Some(Row::WatchSource(looks)) => (
                Label::Silent,
                Some(self.watched(looks, found)),
                wave,
            ),
            Some(Row::AwaitServed) => {
                let (row, wave) = self.after_wave();
                (Label::Silent, row, wave)
            }
            Some(Row::RaiseOff(cpu)) => (Label::Silent, self.off_from(cpu + 1), wave),
            row => (Label::Silent, row, wave),
        }
    }

    /// How many processors the platform has.
    pub fn processors(&self) -> u16
        ensures { result ≡ self.now.setup.processors }
    {
        self.setup.processors
    }

    /// All waves were served, and it does nothing more.
    pub fn is_off(&self) -> bool
        ensures off { result ≡ is_none self.now.row }
        ensures kept { IsChipset self.now }
    {
        self.row.is_none()
    }

    // The row of the next processor of the wave, or the first look for the wave to be taken.
    fn raise_from(&self, cpu: u16) -> Row
        ensures { result ≡ raise_row cpu self.now.setup.processors }
    {
        if cpu < self.setup.processors {
            Row::RaiseWave(cpu)
        } else {
            Row::WatchSource(0)
        }
    }

    // The row of the next processor whose signal is turned off, none after the last.
    fn off_from(&self, cpu: u16) -> Option<Row>
        ensures { result ≡ off_row cpu self.now.setup.processors }
    {
        if cpu < self.setup.processors {
            Some(Row::RaiseOff(cpu))
        } else {
            None
        }
    }

    fn watched(&self, looks: u32, found: u32) -> Row
        requires { looks < self.now.setup.t1 + self.now.setup.t2 }
        ensures { result ≡ watched_row self.now looks found }
    {
        if found == 0 || looks + 1 >= self.setup.t1 + self.setup.t2 {
            Row::AwaitServed
        } else {
            Row::WatchSource(looks + 1)
        }
    }

    // The next wave is announced, or after the last the signals are turned off.
    fn after_wave(&self) -> (Option<Row>, u32)
        ensures { record self.now { row = result.0; wave = result.1 } ≡ after_wave self.now }
    {
        if (self.wave as usize) < self.setup.waves.len() {
            (Some(Row::AnnounceBlocked), self.wave + 1)
        } else {
            (self.off_from(0), self.wave)
        }
    }

    // How many processors the wave blocks.
    fn blocked(&self) -> u32
        ensures { result ≡ blocked_in self.now.setup.waves self.now.wave }
    {
        count_blocked(arrivals_of(self.setup.waves.as_slice(), self.wave))
    }

    // The signal that a processor gets in the wave.
    fn signal(&self, cpu: u16) -> u32
        ensures { result ≡ signal_in self.now.setup.waves self.now.wave cpu }
    {
        match arrivals_of(self.setup.waves.as_slice(), self.wave).get(usize::from(cpu)) {
            Some(arrival) => signal_for(*arrival),
            None => BLOCKED,
        }
    }
}

// An access to a word at which nothing changes hands.
fn wants(word: WordId, access: Access) -> Want
    ensures { result ≡ wants word access }
{
    Want::Access {
        word,
        access,
        hand: Hand::Nothing,
    }
}
