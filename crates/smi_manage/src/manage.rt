ghost use Rattle.std.specs.Prelude.{◌≡◌, true, IsTrue};
ghost use Rattle.smi_manage.specs.Answers.{stops, settles, fresh, plus, ended_with};
ghost use Rattle.smi_manage.specs.Walks.{begun, at_most, turn_of, after_turn, answered, answer_so_far};

use crate::running::Running;
use handler_registry::Registry;
use smm_base::{HandlerType, Status};
use std::marker::Model;

fn stops_at(kind: HandlerType, status: Status) -> bool
    ensures { result ≡ stops kind status }
{
    match kind {
        HandlerType::Root => false,
        HandlerType::Typed(_) => matches!(status, Status::InterruptPending | Status::Success),
    }
}

fn settles_it(kind: HandlerType, status: Status) -> bool
    ensures { result ≡ settles kind status }
{
    match status {
        Status::SourceQuiesced => true,
        Status::Success => matches!(kind, HandlerType::Root),
        _ => false,
    }
}

fn start() -> Running
    ensures { result ≡ fresh }
{
    Running {
        last: Status::NotFound,
        settled: false,
    }
}

fn add(kind: HandlerType, running: Running, status: Status) -> Running
    ensures { result ≡ plus kind running status }
{
    Running {
        last: status,
        settled: running.settled || settles_it(kind, status),
    }
}

fn answer_of_running(kind: HandlerType, running: Running) -> Status
    ensures { result ≡ ended_with kind running }
{
    if stops_at(kind, running.last) {
        running.last
    } else if running.settled {
        Status::Success
    } else {
        running.last
    }
}

fn within(bound: u32, serial: Option<u32>) -> Option<u32>
    ensures { result ≡ at_most bound serial }
{
    match serial {
        Some(serial) if serial <= bound => Some(serial),
        _ => None,
    }
}

/// A walk over the handlers of one list. It calls those that were registered when it began and
/// still are when their turn comes, in the order of registration.
#[derive(Clone, Copy)]
pub struct Manage {
    kind: HandlerType,
    // The last serial number that was given when the walk began.
    bound: u32,
    // The serial number that the walk gave before, or 0.
    before: u32,
    running: Running,
    // The handler that was given before was not answered for yet.
    awaits: bool,
}

impl Model for Manage {
    ghost use Rattle.smi_manage.specs.Walks.{Walk};

    ghost Value = { Walk };

    ghost view = { λ m. record { kind = m.kind; bound = m.bound; before = m.before; running = m.running; awaits = m.awaits } };

    ghost inverse = { λ w. record { kind = w.kind; bound = w.bound; before = w.before; running = w.running; awaits = w.awaits } };
}

impl Manage {
    /// A walk over this list of the registry, before its first handler.
    pub fn begin(kind: HandlerType, registry: &Registry) -> Manage
        ensures { result ≡ begun kind registry.now }
    {
        Manage {
            kind,
            bound: registry.last(),
            before: 0,
            running: start(),
            awaits: false,
        }
    }

    /// The serial number of the handler to call now: the least live one of the list above the one
    /// given before and not above the last one given when the walk began. None where an answer
    /// stopped the walk, or where there is none; then nothing changes.
    pub fn next(&mut self, registry: &Registry) -> Option<u32>
        ensures turn { result ≡ turn_of self.old registry.now }
        ensures moved { self.new ≡ after_turn result self.old }
    {
        if stops_at(self.kind, self.running.last) {
            return None;
        }
        let turn = within(self.bound, registry.next(self.kind, self.before));
        if let Some(serial) = turn {
            self.before = serial;
            self.awaits = true;
        }
        turn
    }

    /// Takes the status that the handler returned which `next` gave last. Each handler that was
    /// given is answered for at most once.
    pub fn answer(&mut self, status: Status)
        requires { IsTrue self.old.awaits }
        ensures { self.new ≡ answered status self.old }
    {
        self.running = add(self.kind, self.running, status);
        self.awaits = false;
    }

    /// The walk's answer to the statuses so far: NOT_FOUND before the first.
    pub fn end(&self) -> Status
        ensures { result ≡ answer_so_far self.now }
    {
        answer_of_running(self.kind, self.running)
    }
}
