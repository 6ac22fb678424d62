ghost use Rattle.std.specs.Prelude.{◌≡◌, true, Some, is_some, slice_set, IsSome};
ghost use Rattle.cpu_table.specs.Data.{data_of};
ghost use Rattle.sync_words.specs.Steps.{hand_of};
ghost use Rattle.handler_ops.specs.Course.{desk_of};
ghost use Rattle.cpu_program.specs.Processors.{can_run};
ghost use Rattle.cpu_program.specs.Views.{processor_in};
ghost use Rattle.cpu_program.specs.Hands.{after_giving, after_receiving, chair_received, desk_given, desk_left, desk_received, is_giving_back, job_run, thing_given};
ghost use Rattle.cpu_program.specs.Programs.{gift_of_hand, given_by_hand, received_by_hand};

use crate::cargo::Cargo;
use crate::part::Part;
use crate::processor::Processor;
use cpu_table::Setup;
use handler_ops::{BoxedDesk, Desks, Job, Server};
use sync_words::{Hand, Row, Want};

// How a processor gives and receives.
impl Processor {
    /// The thing that a hand gives is there.
    pub fn has_gift(&self, hand: Hand) -> bool
        ensures { result ≡ is_some (gift_of_hand hand (processor_in self.now)) }
    {
        match hand {
            Hand::Give(k) => self.has(k),
            Hand::Take(_) | Hand::Nothing => false,
        }
    }

    fn has(&self, k: u16) -> bool
        ensures { result ≡ is_some (thing_given (processor_in self.now) k) }
    {
        if k == self.identity.setup.processors {
            self.chair.is_some()
        } else {
            self.held.desks.get(k).is_some()
        }
    }

    /// Gives what a hand gives, which is there.
    pub fn give_wanted(&mut self, hand: Hand) -> Cargo
        requires { IsSome (gift_of_hand hand (processor_in self.old)) }
        ensures gift { Some result ≡ gift_of_hand hand (processor_in self.old) }
        ensures after { processor_in self.new ≡ given_by_hand hand (processor_in self.old) }
    {
        cargo_of(self.give_by(hand))
    }

    fn give_by(&mut self, hand: Hand) -> Option<Cargo>
        ensures gift { result ≡ gift_of_hand hand (processor_in self.old) }
        ensures after { processor_in self.new ≡ given_by_hand hand (processor_in self.old) }
    {
        match hand {
            Hand::Give(k) => self.give(k),
            Hand::Take(_) | Hand::Nothing => None,
        }
    }

    /// Receives what a hand takes, or what it gave and didn't move.
    pub fn receive_wanted(&mut self, hand: Hand, cargo: Cargo)
        ensures { processor_in self.new ≡ received_by_hand hand cargo (processor_in self.old) }
    {
        match hand {
            Hand::Give(k) | Hand::Take(k) => self.receive(k, cargo),
            Hand::Nothing => {}
        }
    }

    /// Gives the thing with this number, if it has it: the chair has the number of processors, a desk that of its processor. An AP runs
    /// its job as it gives its desk back.
    pub fn give(&mut self, k: u16) -> Option<Cargo>
        ensures thing { result ≡ thing_given (processor_in self.old) k }
        ensures after { processor_in self.new ≡ after_giving (processor_in self.old) k }
    {
        if k == self.identity.setup.processors {
            match self.chair.take() {
                None => None,
                Some(server) => Some(Cargo::Chair(server)),
            }
        } else if is_giving_back(&self.part) {
            self.give_back(k)
        } else {
            match self.held.desks.take(k) {
                None => None,
                Some(desk) => Some(Cargo::Desk(desk)),
            }
        }
    }

    // The desk with its job run.
    fn give_back(&mut self, k: u16) -> Option<Cargo>
        requires { is_giving_back self.old.part ≡ true }
        ensures thing { result ≡ desk_given (processor_in self.old) (desk_of self.old.held.desks k) }
        ensures after { processor_in self.new ≡ desk_left (processor_in self.old) k }
    {
        match self.held.desks.take(k) {
            None => {
                self.ran = None;
                None
            }
            Some(mut desk) => {
                run_if_any(&self.identity.setup, &mut desk);
                self.ran = desk.get().job;
                Some(Cargo::Desk(desk))
            }
        }
    }

    /// Receives what was taken, or what was given and didn't move. What doesn't fit is dropped.
    pub fn receive(&mut self, k: u16, cargo: Cargo)
        ensures { processor_in self.new ≡ after_receiving (processor_in self.old) k cargo }
    {
        match cargo {
            Cargo::Desk(desk) => self.receive_desk(k, desk),
            Cargo::Chair(server) => self.receive_chair(k, server),
        }
    }

    fn receive_desk(&mut self, k: u16, desk: BoxedDesk)
        ensures { processor_in self.new ≡ desk_received (processor_in self.old) k desk }
    {
        if desk.get().image.kind() == self.identity.setup.kind {
            put_if_any(&mut self.held.desks, k, desk);
        }
    }

    fn receive_chair(&mut self, k: u16, server: Server)
        ensures { processor_in self.new ≡ chair_received (processor_in self.old) k server }
    {
        if k == self.identity.setup.processors
            && server.processors() == self.identity.setup.processors
        {
            self.chair = Some(server);
        }
    }
}

/// What changes hands with a wanted access.
pub fn hand_of(want: Want) -> Hand
    ensures { result ≡ hand_of want }
{
    match want {
        Want::Access { hand, .. } => hand,
        Want::Off => Hand::Nothing,
    }
}

// Holds the desk of a processor; there is none beyond the last.
#[tactic(auto, using(crate::proofs::DeskLemmas::put_past))]
fn put_if_any(held: &mut Desks, k: u16, desk: BoxedDesk)
    ensures { held.new ≡ slice_set held.old k (Some desk) }
{
    if usize::from(k) < held.len() {
        held.put(k, desk);
    }
}

fn cargo_of(thing: Option<Cargo>) -> Cargo
    requires { IsSome thing }
    ensures { Some result ≡ thing }
{
    match thing {
        Some(cargo) => cargo,
        None => unreachable!(),
    }
}

fn is_giving_back(part: &Part) -> bool
    ensures { result ≡ is_giving_back part.now }
{
    matches!(part, Part::Between(Row::GiveDeskBack))
}

/// Is it the job of one of the platform's procedures, and still to be run?
pub fn can_run(setup: &Setup, job: &Job) -> bool
    ensures { result ≡ can_run (data_of setup.now) job.now }
{
    job.done.is_none() && usize::from(job.procedure) < setup.procedures.len()
}

// Runs the job on a desk, if it is still to be run.
fn run_if_any(setup: &Setup, desk: &mut BoxedDesk)
    ensures { desk.new ≡ job_run (data_of setup.now) desk.old }
{
    if let Some(job) = desk.get().job {
        if can_run(setup, &job) {
            let _answer = desk.run(setup);
        }
    }
}
