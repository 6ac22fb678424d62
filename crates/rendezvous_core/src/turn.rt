ghost use Rattle.std.specs.Prelude.{◌≡◌, ◌≤◌, ◌<◌, ◌++◌, ◌∷◌, [], length, slice_get, vec_capacity, IsSomeAnd};
ghost use Rattle.cpu_program.specs.Programs.{want_of, taken, gift_of, number_of};
ghost use Rattle.sync_words.specs.Steps.{IsAccepted, found_of};
ghost use Rattle.sync_words.specs.declared.access.Applied.TheVariants as applied;
ghost use Rattle.sync_words.specs.declared.event.Want.TheVariants as want;
ghost use Rattle.rendezvous_core.specs.declared.turned.Turned.TheVariants as turned;
ghost use Rattle.rendezvous_core.specs.Worlds.{event_of, gives, takes, changes, lying_on, turn, step};
ghost use Rattle.rendezvous_core.specs.WorldInside.{HasNumber};
ghost use Rattle.rendezvous_core.specs.Turns.{stepped_by, turned_of, events_with, words_by, lying_by, actor_by, world_in};

use crate::lying::Lying;
use crate::turned::Turned;
use crate::words::Words;
use cpu_program::Program;
use sync_words::{Access, Applied, Event, Hand, LOCKED, Label, Want, WordId, apply};

// An access of an actor.
#[derive(Clone, Copy)]
struct Attempt {
    me: u16,
    word: WordId,
    access: Access,
    hand: Hand,
}

// The event of an attempt that was accepted is kept, and the program says its label there.
fn tell(
    attempt: &Attempt,
    applied: Applied,
    program: &mut Program,
    events: &mut Vec<Event>,
) -> Turned
    requires number { number_of program.old ≡ attempt.now.me }
    requires wanted { want_of program.old ≡ want.Access attempt.now.word attempt.now.access attempt.now.hand }
    requires accepted { IsAccepted attempt.now.access applied }
    requires room { length events.old.items < vec_capacity events.old }
    ensures turned { result ≡ turned.Event }
    ensures event { events.new.items ≡ events.old.items ++ (event_of attempt.now.me attempt.now.word attempt.now.access (found_of applied) (taken program.old (found_of applied)).label ∷ []) }
    ensures capacity { vec_capacity events.new ≡ vec_capacity events.old }
    ensures after { program.new ≡ (taken program.old (found_of applied)).after }
{
    let place = events.len();
    events.push_reserved(Event {
        actor: attempt.me,
        word: attempt.word,
        access: attempt.access,
        found: applied.found(),
        label: Label::Silent,
    });
    program.conclude(applied, &mut events[place].label);
    Turned::Event
}

// The word changes, and the program lays a thing on it. Without that thing it waits.
#[inline(never)]
#[tactic(auto, using(crate::proofs::NumberLemmas::given_number))]
fn give(
    attempt: &Attempt,
    new: u32,
    found: u32,
    words: &mut Words,
    lying: &mut Lying,
    program: &mut Program,
    events: &mut Vec<Event>,
) -> Turned
    requires number { number_of program.old ≡ attempt.now.me }
    requires wanted { want_of program.old ≡ want.Access attempt.now.word attempt.now.access attempt.now.hand }
    requires accepted { IsAccepted attempt.now.access (applied.Changed new found) }
    requires fits { new ≤ LOCKED }
    requires room { length events.old.items < vec_capacity events.old }
    ensures turned { result ≡ turned_of (stepped_by (gives words.old lying.old attempt.now.me attempt.now.word attempt.now.access new found program.old (gift_of program.old))) }
    ensures events { events.new.items ≡ events_with (stepped_by (gives words.old lying.old attempt.now.me attempt.now.word attempt.now.access new found program.old (gift_of program.old))) events.old.items }
    ensures capacity { vec_capacity events.new ≡ vec_capacity events.old }
    ensures words { words.new ≡ words_by (gives words.old lying.old attempt.now.me attempt.now.word attempt.now.access new found program.old (gift_of program.old)) words.old }
    ensures lying { lying.new ≡ lying_by (gives words.old lying.old attempt.now.me attempt.now.word attempt.now.access new found program.old (gift_of program.old)) lying.old }
    ensures actor { program.new ≡ actor_by (gives words.old lying.old attempt.now.me attempt.now.word attempt.now.access new found program.old (gift_of program.old)) program.old }
{
    if !program.has_gift(attempt.hand) {
        return Turned::Waiting(found);
    }
    let cargo = program.give_by(attempt.hand);
    words.set(attempt.word, new);
    lying.lay(attempt.word, cargo);
    tell(attempt, Applied::Changed { new, found }, program, events)
}

// The word changes, and the program takes what lies on it. Where nothing lies it waits.
#[inline(never)]
#[tactic(auto, using(crate::proofs::NumberLemmas::received_number))]
fn take(
    attempt: &Attempt,
    new: u32,
    found: u32,
    words: &mut Words,
    lying: &mut Lying,
    program: &mut Program,
    events: &mut Vec<Event>,
) -> Turned
    requires number { number_of program.old ≡ attempt.now.me }
    requires wanted { want_of program.old ≡ want.Access attempt.now.word attempt.now.access attempt.now.hand }
    requires accepted { IsAccepted attempt.now.access (applied.Changed new found) }
    requires fits { new ≤ LOCKED }
    requires room { length events.old.items < vec_capacity events.old }
    ensures turned { result ≡ turned_of (stepped_by (takes words.old lying.old attempt.now.me attempt.now.word attempt.now.access new found program.old (lying_on lying.old attempt.now.word))) }
    ensures events { events.new.items ≡ events_with (stepped_by (takes words.old lying.old attempt.now.me attempt.now.word attempt.now.access new found program.old (lying_on lying.old attempt.now.word))) events.old.items }
    ensures capacity { vec_capacity events.new ≡ vec_capacity events.old }
    ensures words { words.new ≡ words_by (takes words.old lying.old attempt.now.me attempt.now.word attempt.now.access new found program.old (lying_on lying.old attempt.now.word)) words.old }
    ensures lying { lying.new ≡ lying_by (takes words.old lying.old attempt.now.me attempt.now.word attempt.now.access new found program.old (lying_on lying.old attempt.now.word)) lying.old }
    ensures actor { program.new ≡ actor_by (takes words.old lying.old attempt.now.me attempt.now.word attempt.now.access new found program.old (lying_on lying.old attempt.now.word)) program.old }
{
    match lying.take(attempt.word) {
        None => Turned::Waiting(found),
        Some(cargo) => {
            words.set(attempt.word, new);
            program.receive_by(attempt.hand, cargo);
            tell(attempt, Applied::Changed { new, found }, program, events)
        }
    }
}

// The word changes, and with it what changes hands.
fn change(
    attempt: &Attempt,
    new: u32,
    found: u32,
    words: &mut Words,
    lying: &mut Lying,
    program: &mut Program,
    events: &mut Vec<Event>,
) -> Turned
    requires number { number_of program.old ≡ attempt.now.me }
    requires wanted { want_of program.old ≡ want.Access attempt.now.word attempt.now.access attempt.now.hand }
    requires accepted { IsAccepted attempt.now.access (applied.Changed new found) }
    requires fits { new ≤ LOCKED }
    requires room { length events.old.items < vec_capacity events.old }
    ensures turned { result ≡ turned_of (stepped_by (changes words.old lying.old attempt.now.me attempt.now.word attempt.now.access attempt.now.hand new found program.old)) }
    ensures events { events.new.items ≡ events_with (stepped_by (changes words.old lying.old attempt.now.me attempt.now.word attempt.now.access attempt.now.hand new found program.old)) events.old.items }
    ensures capacity { vec_capacity events.new ≡ vec_capacity events.old }
    ensures words { words.new ≡ words_by (changes words.old lying.old attempt.now.me attempt.now.word attempt.now.access attempt.now.hand new found program.old) words.old }
    ensures lying { lying.new ≡ lying_by (changes words.old lying.old attempt.now.me attempt.now.word attempt.now.access attempt.now.hand new found program.old) lying.old }
    ensures actor { program.new ≡ actor_by (changes words.old lying.old attempt.now.me attempt.now.word attempt.now.access attempt.now.hand new found program.old) program.old }
{
    match attempt.hand {
        Hand::Give(_) => give(attempt, new, found, words, lying, program, events),
        Hand::Take(_) => take(attempt, new, found, words, lying, program, events),
        Hand::Nothing => {
            words.set(attempt.word, new);
            tell(attempt, Applied::Changed { new, found }, program, events)
        }
    }
}

/// The turn of the actor `me`. Where its access isn't ready, or it is off, nothing changes.
pub fn take_turn(
    words: &mut Words,
    lying: &mut Lying,
    me: u16,
    program: &mut Program,
    events: &mut Vec<Event>,
) -> Turned
    requires number { number_of program.old ≡ me }
    requires room { length events.old.items < vec_capacity events.old }
    ensures turned { result ≡ turned_of (stepped_by (turn words.old lying.old me program.old)) }
    ensures events { events.new.items ≡ events_with (stepped_by (turn words.old lying.old me program.old)) events.old.items }
    ensures capacity { vec_capacity events.new ≡ vec_capacity events.old }
    ensures words { words.new ≡ words_by (turn words.old lying.old me program.old) words.old }
    ensures lying { lying.new ≡ lying_by (turn words.old lying.old me program.old) lying.old }
    ensures actor { program.new ≡ actor_by (turn words.old lying.old me program.old) program.old }
{
    let Want::Access { word, access, hand } = program.want() else {
        return Turned::Off;
    };
    let attempt = Attempt {
        me,
        word,
        access,
        hand,
    };
    match apply(words.get(word), access) {
        Applied::NotReady { found } => Turned::Waiting(found),
        Applied::Same { found } => tell(&attempt, Applied::Same { found }, program, events),
        Applied::Changed { new, found } => change(
            &attempt, new, found, words, lying, program, events,
        ),
    }
}

/// One step of the actor `me` of these actors. Its event, if there is one, is kept.
pub fn step_of(
    words: &mut Words,
    lying: &mut Lying,
    programs: &mut [Program],
    me: u16,
    events: &mut Vec<Event>,
) -> Turned
    requires me_in { me < length programs.old }
    requires number { IsSomeAnd (slice_get programs.old me) (HasNumber me) }
    requires room { length events.old.items < vec_capacity events.old }
    ensures turned { result ≡ turned_of (step (world_in words.old lying.old programs.old) me).0 }
    ensures events { events.new.items ≡ events_with (step (world_in words.old lying.old programs.old) me).0 events.old.items }
    ensures capacity { vec_capacity events.new ≡ vec_capacity events.old }
    ensures world { world_in words.new lying.new programs.new ≡ (step (world_in words.old lying.old programs.old) me).1 }
{
    take_turn(words, lying, me, &mut programs[usize::from(me)], events)
}
