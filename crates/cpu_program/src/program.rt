ghost use Rattle.std.specs.Prelude.{◌≡◌, ◌≤◌, Some, is_some, IfOk, IfSome, IsSome, option_copied};
ghost use Rattle.cpu_table.specs.Data.{data_of};
ghost use Rattle.sync_words.specs.Steps.{Accepts, IsWantWithin, found_of, hand_of};
ghost use Rattle.sync_words.specs.declared.event.Want.TheVariants as want;
ghost use Rattle.cpu_program.specs.Bounds.{IsActor};
ghost use Rattle.cpu_program.specs.Platforms.{FitsPlatform};
ghost use Rattle.cpu_program.specs.Programs.{first_actor, gift_of, given, is_off, is_processor, last_of, number_of, processors_of, received, taken, want_of, IsAccess, IsWanted};

use crate::cargo::Cargo;
use crate::hands::hand_of;
use crate::state::State;
use cpu_regs::Regs;
use cpu_table::Setup;
use handler_ops::Server;
use save_state_map::Image;
use smm_base::NoMemory;
use std::alloc::Global;
use std::marker::Model;
use sync_words::{Access, Applied, Event, Hand, Label, Want, WordId};

/// What one actor does: a processor, or the chipset. It tells the access that it wants, is told what the access found, and answers
/// with the event. The desk or the chair that changes hands at the access is given before it is told, or received.
#[derive(Drop)]
pub struct Program {
    state: State,
}

impl Model for Program {
    ghost use Rattle.cpu_program.specs.Actors.{Actor};
    ghost use Rattle.cpu_program.specs.Bounds.{IsActor};
    ghost use Rattle.cpu_program.specs.Views.{actor_in};

    ghost Value = { Actor };

    ghost view = { λ p. actor_in p.state };

    ghost invariant = { λ p. IsActor (actor_in p.state) };
}

impl Program {
    /// The program of an actor: of a processor with its first image and its registers, which are of the platform's kind, and the chair
    /// where it has it; or of the chipset, whose number is that of the processors. It takes all memory that it will use. On
    /// `NoMemory` what was handed in is dropped.
    pub fn new(
        alloc: Global,
        setup: &Setup,
        actor: u16,
        start: Option<Image>,
        regs: Option<Regs>,
        chair: Option<Server>,
    ) -> Result<Program, NoMemory>
        requires actor { actor ≤ setup.now.processors }
        requires image { (is_some start) ≡ (is_processor setup.now.processors actor) }
        requires registers { (is_some regs) ≡ (is_processor setup.now.processors actor) }
        requires images { IfSome start (λ image. image.kind ≡ setup.now.kind) }
        requires kinds { IfSome regs (λ registers. registers.kind ≡ setup.now.kind) }
        requires chair { IfSome chair (λ server. server.setup ≡ data_of setup.now) }
        ensures { IfOk result (λ program. program ≡ first_actor (data_of setup.now) actor start regs chair) }
    {
        let state = State::new(alloc, setup, actor, start, regs, chair)?;
        Ok(Program { state })
    }

    /// What it wants: an access to a word with what changes hands, or nothing where it is off. Constant time, but for the chipset's
    /// announcement of a wave, at most proportional to the number of processors.
    pub fn want(&self) -> Want
        ensures want { result ≡ want_of self.now }
        ensures within { IsWantWithin (processors_of self.now) result }
        ensures bounds { IsActor self.now }
    {
        self.state.want()
    }

    /// The thing that it wants to give is there.
    pub fn can_give(&self) -> bool
        ensures { result ≡ is_some (gift_of self.now) }
    {
        self.has_gift(hand_of(self.state.want()))
    }

    /// The same, where the wanted hand is known.
    pub fn has_gift(&self, hand: Hand) -> bool
        requires { hand ≡ hand_of (want_of self.now) }
        ensures { result ≡ is_some (gift_of self.now) }
    {
        self.state.has_gift(hand)
    }

    /// Gives what it wants to give. An AP that gives its desk back runs its job first.
    pub fn give(&mut self) -> Cargo
        requires { IsSome (gift_of self.old) }
        ensures gift { Some result ≡ gift_of self.old }
        ensures after { self.new ≡ given self.old }
        ensures wants { want_of self.new ≡ want_of self.old }
    {
        let hand = hand_of(self.state.want());
        self.give_by(hand)
    }

    /// The same, where the wanted hand is known.
    pub fn give_by(&mut self, hand: Hand) -> Cargo
        requires wanted { hand ≡ hand_of (want_of self.old) }
        requires there { IsSome (gift_of self.old) }
        ensures gift { Some result ≡ gift_of self.old }
        ensures after { self.new ≡ given self.old }
        ensures wants { want_of self.new ≡ want_of self.old }
    {
        self.state.give(hand)
    }

    /// Receives what it wants to take, or takes back what it gave just before and what didn't move. It is safe for every cargo: what
    /// doesn't fit is dropped.
    pub fn receive(&mut self, cargo: Cargo)
        ensures after { self.new ≡ received cargo self.old }
        ensures wants { want_of self.new ≡ want_of self.old }
    {
        let hand = hand_of(self.state.want());
        self.receive_by(hand, cargo);
    }

    /// The same, where the wanted hand is known.
    pub fn receive_by(&mut self, hand: Hand, cargo: Cargo)
        requires { hand ≡ hand_of (want_of self.old) }
        ensures after { self.new ≡ received cargo self.old }
        ensures wants { want_of self.new ≡ want_of self.old }
    {
        self.state.receive(hand, cargo);
    }

    /// Goes on after the wanted access was accepted and what changes hands has done so, and gives the event.
    pub fn take(&mut self, applied: Applied) -> Event
        requires { Accepts (want_of self.old) applied }
        ensures actor { result.actor ≡ number_of self.old }
        ensures access { IsWanted (want_of self.old) result }
        ensures found { result.found ≡ found_of applied }
        ensures label { result.label ≡ (taken self.old (found_of applied)).label }
        ensures after { self.new ≡ (taken self.old (found_of applied)).after }
    {
        let (word, access) = wanted(self.state.want());
        let actor = self.state.number();
        let mut label = Label::Silent;
        self.conclude(applied, &mut label);
        Event {
            actor,
            word,
            access,
            found: applied.found(),
            label,
        }
    }

    /// The same. What the event says takes the place of `label`.
    pub fn conclude(&mut self, applied: Applied, label: &mut Label)
        requires { Accepts (want_of self.old) applied }
        ensures said { label.new ≡ (taken self.old (found_of applied)).label }
        ensures after { self.new ≡ (taken self.old (found_of applied)).after }
    {
        self.state.take(applied, label);
    }

    /// The image of the last resume, or the first image of a processor that never resumed; none for the chipset.
    pub fn last(&self) -> Option<&Image>
        ensures image { option_copied result ≡ last_of self.now }
        // It is of the platform's kind.
        ensures fits { FitsPlatform self.now }
    {
        match &self.state {
            State::Processor(processor) => Some(&processor.last),
            State::Chipset(_) => None,
        }
    }

    /// It does nothing more.
    pub fn is_off(&self) -> bool
        ensures { result ≡ is_off self.now }
    {
        match &self.state {
            State::Processor(processor) => processor.is_off(),
            State::Chipset(chipset) => chipset.is_off(),
        }
    }
}

// The word and the access that are wanted.
fn wanted(wish: Want) -> (WordId, Access)
    requires { IsAccess wish }
    ensures { wish ≡ want.Access result.0 result.1 (hand_of wish) }
{
    match wish {
        Want::Access { word, access, .. } => (word, access),
        Want::Off => unreachable!(),
    }
}
