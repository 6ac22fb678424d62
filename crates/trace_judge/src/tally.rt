ghost use Rattle.std.specs.Prelude.{◌≡◌, ◌-◌, ◌<◌, ◌^◌};
ghost use Rattle.trace_judge.specs.Tallies.{is_end, is_wave, is_served, one_if, first_tally, counted, is_told, IsTallyBelow};

use sync_words::Label;
use trace_text::Totals;

/// What is counted of the events of a trace.
#[derive(Clone, Copy)]
pub struct Tally {
    pub events: u64,
    /// The sessions that ended.
    pub sessions: u64,
    /// The waves that were announced.
    pub waves: u64,
    /// The waves that were served.
    pub served: u64,
}

// The label says that a session ends.
fn ends_session(label: Label) -> bool
    ensures { result ≡ is_end label }
{
    matches!(label, Label::End)
}

// It announces a wave.
fn announces_wave(label: Label) -> bool
    ensures { result ≡ is_wave label }
{
    matches!(label, Label::Wave(_))
}

// It says that a wave was served.
fn serves_wave(label: Label) -> bool
    ensures { result ≡ is_served label }
{
    matches!(label, Label::Served(wave) if wave != 0)
}

fn one_if(test: bool) -> u64
    ensures { result ≡ one_if test }
{
    if test { 1 } else { 0 }
}

impl Tally {
    /// Nothing was counted yet.
    pub(crate) fn new() -> Tally
        ensures { result ≡ first_tally }
    {
        Tally {
            events: 0,
            sessions: 0,
            waves: 0,
            served: 0,
        }
    }

    /// One event more.
    pub(crate) fn counted(self, label: Label) -> Tally
        requires { IsTallyBelow (2 ^ 64 - 1) self }
        ensures { result ≡ counted self label }
    {
        Tally {
            events: self.events + 1,
            sessions: self.sessions + one_if(ends_session(label)),
            waves: self.waves + one_if(announces_wave(label)),
            served: self.served + one_if(serves_wave(label)),
        }
    }

    /// The last line tells these numbers.
    pub(crate) fn is_told(self, totals: Totals) -> bool
        ensures { result ≡ is_told self totals }
    {
        totals.events == self.events
            && totals.sessions == self.sessions
            && totals.unserved == self.waves.saturating_sub(self.served)
    }
}
