ghost use Rattle.std.specs.Prelude.{◌≡◌};
ghost use Rattle.rendezvous_core.specs.Turns.{stepped_from};

use crate::stepped::Stepped;
use sync_words::Event;

/// What came of one step of an actor, whose event was kept if there is one.
#[derive(Clone, Copy)]
pub enum Turned {
    Event,
    Waiting(u32),
    Off,
}

impl Turned {
    /// The same with the event, which was kept last.
    pub fn stepped(self, events: &[Event]) -> Stepped
        ensures { result ≡ stepped_from self events.now }
    {
        match self {
            Turned::Event => match events.last() {
                Some(event) => Stepped::Event(*event),
                None => Stepped::Off,
            },
            Turned::Waiting(found) => Stepped::Waiting(found),
            Turned::Off => Stepped::Off,
        }
    }
}
