ghost use Rattle.std.specs.Prelude.{◌≡◌, ◌<◌, ◌≤◌, ◌++◌, [], All, length, IfOk, IfErr, OnOk, None, Some, true};
ghost use Rattle.cpu_table.specs.Data.{data_of};
ghost use Rattle.rendezvous_core.specs.Endings.{IsNeverStuck};
ghost use Rattle.rendezvous_core.specs.Finishes.{rounds, played_on, HasRoomForAll, IsReplayOfItsActors};
ghost use Rattle.rendezvous_core.specs.Platforms.{HasFittingImage};
ghost use Rattle.rendezvous_core.specs.Starts.{AreImagesOf, first_registers, start_refusal, IsRefusedBy};
ghost use Rattle.rendezvous_core.specs.Turns.{turned_of};
ghost use Rattle.rendezvous_core.specs.Worlds.{start, step, with_event, is_complete, last_image, MakesNoEvent};

use crate::beginning::first_programs;
use crate::error::{WorldError, not_relocated};
use crate::finishing::{finish, play};
use crate::lying::Lying;
use crate::starting::{start_fault, start_registers};
use crate::stepped::Stepped;
use crate::turn::step_of;
use crate::turned::Turned;
use crate::words::Words;
use cpu_program::Program;
use cpu_table::Setup;
use save_state_map::Image;
use smm_base::NoMemory;
use std::alloc::Global;
use std::marker::Model;
use sync_words::Event;

/// A replay as far as it has come: the world, and the events that led to it. The actors are the processors by number,
/// and then the chipset.
#[derive(Drop)]
pub struct World {
    processors: u16,
    words: Words,
    lying: Lying,
    programs: Vec<Program>,
    events: Vec<Event>,
    room: usize,
}

impl Model for World {
    ghost use Rattle.rendezvous_core.specs.Worlds.{Replay};
    ghost use Rattle.rendezvous_core.specs.WorldInside.{replay_of, IsWorld};

    ghost Value = { Replay };

    ghost view = { replay_of };

    ghost invariant = { IsWorld };
}

impl World {
    // The start, where the relocation isn't refused.
    #[tactic(auto, using(crate::proofs::ActorLemmas::start_actors))]
    fn start(alloc: Global, setup: &Setup, images: &[Image], room: usize) -> Result<World, NoMemory>
        requires images { AreImagesOf (data_of setup.now) images.now }
        requires relocatable { start_refusal (data_of setup.now) images.now ≡ None }
        ensures { IfOk result (λ w. w ≡ record { processors = setup.now.processors; world = start (data_of setup.now) (first_registers (data_of setup.now) images.now) images.now; events = []; room = room }) }
    {
        Ok(World {
            processors: setup.processors,
            words: Words::start(alloc, setup)?,
            lying: Lying::start(alloc, setup)?,
            programs: first_programs(alloc, setup, images)?,
            events: Vec::with_capacity(alloc, room)?,
            room,
        })
    }

    /// The start on a platform, from an image for each processor, of the platform's kind. Where the setup has an area for
    /// save states, the processors are relocated to it: their registers, while their images stay. There is room for so
    /// many events. A relocation that is refused is found first; then all memory that the replay uses is taken.
    pub fn new(
        alloc: Global,
        setup: &Setup,
        images: &Vec<Image>,
        room: usize,
    ) -> Result<World, WorldError>
        requires images { AreImagesOf (data_of setup.now) images.now.items }
        ensures start { IfOk result (λ w. w ≡ record { processors = setup.now.processors; world = start (data_of setup.now) (first_registers (data_of setup.now) images.now.items) images.now.items; events = []; room = room }) }
        ensures relocatable { OnOk result (start_refusal (data_of setup.now) images.now.items ≡ None) }
        ensures refused { IfErr result (IsRefusedBy (start_refusal (data_of setup.now) images.now.items)) }
    {
        if let Some(error) = start_fault(setup, images) {
            return Err(not_relocated(error));
        }
        match World::start(alloc, setup, images.as_slice(), room) {
            Ok(world) => Ok(world),
            Err(NoMemory) => Err(WorldError::NoMemory),
        }
    }

    /// One step of an actor, as [`World::step`] makes it, whose event is kept and not handed back.
    pub(crate) fn advance(&mut self, actor: u16) -> Turned
        requires actor_in { actor ≤ self.old.processors }
        requires has_room { length self.old.events < self.old.room }
        ensures turned { result ≡ turned_of (step self.old.world actor).0 }
        ensures world { self.new.world ≡ (step self.old.world actor).1 }
        ensures events { self.new.events ≡ self.old.events ++ with_event (step self.old.world actor).0 [] }
        ensures room { self.new.room ≡ self.old.room }
        ensures processors { self.new.processors ≡ self.old.processors }
    {
        step_of(
            &mut self.words,
            &mut self.lying,
            &mut self.programs,
            actor,
            &mut self.events,
        )
    }

    /// One step of an actor: a processor by its number, or the chipset, which has the number of processors. It takes no
    /// memory, and the time of the actor's program. Where the actor waits or is off, nothing changes.
    pub fn step(&mut self, actor: u16) -> Stepped
        requires actor_in { actor ≤ self.old.processors }
        requires has_room { length self.old.events < self.old.room }
        ensures stepped { result ≡ (step self.old.world actor).0 }
        ensures world { self.new.world ≡ (step self.old.world actor).1 }
        ensures events { self.new.events ≡ self.old.events ++ with_event result [] }
        ensures room { self.new.room ≡ self.old.room }
        ensures processors { self.new.processors ≡ self.old.processors }
        ensures stays { MakesNoEvent result → self.new ≡ self.old }
    {
        let turned = self.advance(actor);
        turned.stepped(&self.events)
    }

    /// The events so far, in their order.
    pub fn events(&self) -> &Vec<Event>
        ensures { result.now.items ≡ self.now.events }
    {
        &self.events
    }

    /// The image that processor `i` last resumed from, or its first.
    pub fn after(&self, i: u16) -> &Image
        requires { i < self.now.processors }
        ensures image { last_image self.now.world i ≡ Some result.now }
        // It is of the kind of the processor's platform.
        ensures fits { HasFittingImage self.now.world i }
    {
        match self.programs[usize::from(i)].last() {
            Some(image) => image,
            None => unreachable!(),
        }
    }

    /// Is every actor off?
    pub fn complete(&self) -> bool
        ensures { result ≡ is_complete self.now.world }
    {
        self.programs.iter().all(|program| program.is_off())
    }

    /// The steps of a schedule, where nothing is ever stuck from here on and there is room for the events of every schedule.
    pub fn play(&mut self, schedule: &[u16])
        requires known { All (λ actor. actor ≤ self.old.processors) schedule.now }
        requires goes_on { IsNeverStuck self.old.world }
        requires has_room { HasRoomForAll self.old }
        ensures { self.new ≡ played_on self.old schedule.now }
    {
        play(self, schedule);
    }

    /// Steps all actors one after the other, the processors by number and then the chipset, round after round, until every
    /// one is off. An actor that waits isn't asked again before a word may have changed. It takes no memory.
    ///
    /// There are at most 64 processors, there is room for the events of every schedule, and nothing is ever stuck from here
    /// on: so it is wherever a schedule leads on a platform, by a law above this crate.
    pub fn finish(&mut self)
        requires few { self.old.processors ≤ 64 }
        requires goes_on { IsNeverStuck self.old.world }
        requires has_room { HasRoomForAll self.old }
        ensures complete { is_complete self.new.world ≡ true }
        // It went on by rounds: as many as there is room for events, since where all are off a round changes nothing.
        ensures played { self.new ≡ played_on self.old (rounds self.old.processors self.old.room) }
        ensures replayed { IsReplayOfItsActors self.old self.new }
    {
        let processors = self.processors;
        finish(self, processors);
    }
}
