ghost use Rattle.std.specs.Prelude.{◌≡◌, ◌<◌, Some, is_some, IfOk, IsSome};
ghost use Rattle.cpu_table.specs.Data.{data_of};
ghost use Rattle.sync_words.specs.Steps.{Accepts, found_of, hand_of};
ghost use Rattle.cpu_program.specs.Bounds.{IsActor};
ghost use Rattle.cpu_program.specs.Programs.{first_actor, gift_of, given, number_of, received, taken, want_of};
ghost use Rattle.cpu_program.specs.Views.{actor_in};

use crate::cargo::Cargo;
use crate::identity::Identity;
use crate::processor::{Processor, held_at_first};
use chipset::Chipset;
use cpu_regs::Regs;
use cpu_table::Setup;
use handler_ops::Server;
use save_state_map::Image;
use smm_base::NoMemory;
use std::alloc::Global;
use sync_words::{Applied, Hand, Label, Want};

/// The actor of a program.
#[derive(Drop)]
pub enum State {
    Processor(Processor),
    Chipset(Chipset),
}

impl State {
    /// The actor at first: a processor where it has an image and registers.
    pub fn new(
        alloc: Global,
        setup: &Setup,
        actor: u16,
        start: Option<Image>,
        regs: Option<Regs>,
        chair: Option<Server>,
    ) -> Result<State, NoMemory>
        requires { IsSome start → actor < setup.now.processors }
        ensures { IfOk result (λ state. actor_in state ≡ first_actor (data_of setup.now) actor start regs chair) }
    {
        let copy = setup.copy()?;
        match (start, regs) {
            (Some(image), Some(registers)) => {
                let held = held_at_first(alloc, setup.processors, actor, &image)?;
                let identity = Identity::new(alloc, copy, actor)?;
                Ok(State::Processor(Processor::new(identity, &image, registers, held, chair)))
            }
            _ => Ok(State::Chipset(Chipset::new(copy))),
        }
    }

    /// What it wants.
    pub fn want(&self) -> Want
        requires { IsActor (actor_in self.now) }
        ensures { result ≡ want_of (actor_in self.now) }
    {
        match self {
            State::Processor(processor) => processor.want(),
            State::Chipset(chipset) => chipset.want(),
        }
    }

    /// The actor's number.
    pub fn number(&self) -> u16
        ensures { result ≡ number_of (actor_in self.now) }
    {
        match self {
            State::Processor(processor) => processor.identity.me,
            State::Chipset(chipset) => chipset.processors(),
        }
    }

    /// The thing that it wants to give is there.
    pub fn has_gift(&self, hand: Hand) -> bool
        requires { hand ≡ hand_of (want_of (actor_in self.now)) }
        ensures { result ≡ is_some (gift_of (actor_in self.now)) }
    {
        match self {
            State::Processor(processor) => processor.has_gift(hand),
            State::Chipset(_) => false,
        }
    }

    /// Gives what it wants to give, which is there.
    pub fn give(&mut self, hand: Hand) -> Cargo
        requires wanted { hand ≡ hand_of (want_of (actor_in self.old)) }
        requires there { IsSome (gift_of (actor_in self.old)) }
        ensures gift { Some result ≡ gift_of (actor_in self.old) }
        ensures after { actor_in self.new ≡ given (actor_in self.old) }
    {
        match self {
            State::Processor(processor) => processor.give_wanted(hand),
            State::Chipset(_) => unreachable!(),
        }
    }

    /// Receives what it wants to take, or what it gave and didn't move.
    pub fn receive(&mut self, hand: Hand, cargo: Cargo)
        requires { hand ≡ hand_of (want_of (actor_in self.old)) }
        ensures { actor_in self.new ≡ received cargo (actor_in self.old) }
    {
        if let State::Processor(processor) = self {
            processor.receive_wanted(hand, cargo);
        }
    }

    /// Goes on after the wanted access was accepted. What the event says takes the place of `label`.
    pub fn take(&mut self, applied: Applied, label: &mut Label)
        requires actor { IsActor (actor_in self.old) }
        requires accepted { Accepts (want_of (actor_in self.old)) applied }
        ensures said { label.new ≡ (taken (actor_in self.old) (found_of applied)).label }
        ensures after { actor_in self.new ≡ (taken (actor_in self.old) (found_of applied)).after }
    {
        match self {
            State::Processor(processor) => processor.take(applied, label),
            State::Chipset(chipset) => *label = chipset.take(applied.found()),
        }
    }
}
