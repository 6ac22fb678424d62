ghost use Rattle.std.specs.Prelude.{◌≡◌, ◌<◌, ◌≤◌, ◌+◌, [], ◌∷◌, All, length, slice_index_or, true};
ghost use Rattle.rendezvous_core.specs.Endings.{IsNeverStuck};
ghost use Rattle.rendezvous_core.specs.Worlds.{is_complete};
ghost use Rattle.rendezvous_core.specs.Asleep.{AreAsleep};
ghost use Rattle.rendezvous_core.specs.Finishes.{round_of, rounds, played_on, HasRoomForAll, IsReplayOfItsActors};

use crate::awake::{is_awake, note};
use crate::world::World;

// The step of an actor. Where all are off there may be no room for an event, and none is made.
#[tactic(auto, using(crate::proofs::Steps::room_for_event, crate::proofs::Steps::step_plays, crate::proofs::Steps::off_plays))]
fn turn(world: &mut World, actor: u16)
    requires actor_in { actor ≤ world.old.processors }
    requires goes_on { IsNeverStuck world.old.world }
    requires has_room { HasRoomForAll world.old }
    ensures { world.new ≡ played_on world.old (actor ∷ []) }
{
    if !world.complete() {
        let _ = world.advance(actor);
    }
}

// The steps of a schedule.
pub fn play(world: &mut World, schedule: &[u16])
    requires known { All (λ actor. actor ≤ world.old.processors) schedule.now }
    requires goes_on { IsNeverStuck world.old.world }
    requires has_room { HasRoomForAll world.old }
    ensures { world.new ≡ played_on world.old schedule.now }
{
    for actor in schedule {
        turn(world, *actor);
    }
}

// The step of an actor, and what it tells of who need not be asked. Where all are off there may be no room for an event, and
// none is made.
#[tactic(auto, using(crate::proofs::Steps::room_for_event, crate::proofs::Steps::step_plays, crate::proofs::Steps::off_plays, crate::proofs::Asleep::noted_sleeps, crate::proofs::Asleep::noted_size))]
fn ask(world: &mut World, actor: u16, awake: &mut [bool])
    requires actor_in { actor ≤ world.old.processors }
    requires flag_in { actor < length awake.old }
    requires flag { slice_index_or awake.old actor true ≡ true }
    requires goes_on { IsNeverStuck world.old.world }
    requires has_room { HasRoomForAll world.old }
    requires asleep { AreAsleep awake.old world.old.world }
    ensures played { world.new ≡ played_on world.old (actor ∷ []) }
    ensures asleep { AreAsleep awake.new world.new.world }
    ensures size { length awake.new ≡ length awake.old }
{
    if !world.complete() {
        let stepped = world.step(actor);
        note(stepped, actor, awake);
    }
}

// The turn of an actor. It isn't asked where it is known to make no event.
#[tactic(auto, using(crate::proofs::Asleep::asleep_plays))]
fn turn_of(world: &mut World, actor: u16, awake: &mut [bool])
    requires actor_in { actor ≤ world.old.processors }
    requires flag_in { actor < length awake.old }
    requires goes_on { IsNeverStuck world.old.world }
    requires has_room { HasRoomForAll world.old }
    requires asleep { AreAsleep awake.old world.old.world }
    ensures played { world.new ≡ played_on world.old (actor ∷ []) }
    ensures asleep { AreAsleep awake.new world.new.world }
    ensures size { length awake.new ≡ length awake.old }
{
    if is_awake(awake, actor) {
        ask(world, actor, awake);
    }
}

// A step of each actor: the processors by number, and then the chipset.
fn round(world: &mut World, processors: u16, awake: &mut [bool])
    requires processors { processors ≡ world.old.processors }
    requires few { processors ≤ 64 }
    requires flags { length awake.old ≡ 65 }
    requires goes_on { IsNeverStuck world.old.world }
    requires has_room { HasRoomForAll world.old }
    requires asleep { AreAsleep awake.old world.old.world }
    ensures played { world.new ≡ played_on world.old (round_of processors) }
    ensures asleep { AreAsleep awake.new world.new.world }
    ensures flags { length awake.new ≡ 65 }
{
    for actor in 0..processors + 1 {
        turn_of(world, actor, awake);
    }
}

// Round after round until every actor is off.
pub fn finish(world: &mut World, processors: u16)
    requires processors { processors ≡ world.old.processors }
    requires few { processors ≤ 64 }
    requires actors { length world.old.world.actors ≡ processors + 1 }
    requires goes_on { IsNeverStuck world.old.world }
    requires has_room { HasRoomForAll world.old }
    ensures complete { is_complete world.new.world ≡ true }
    ensures played { world.new ≡ played_on world.old (rounds processors world.old.room) }
    ensures replayed { IsReplayOfItsActors world.old world.new }
{
    let mut awake = [true; 65];
    while !world.complete() {
        round(world, processors, &mut awake);
    }
}
