ghost use Rattle.std.specs.Prelude.{◌≡◌, ◌≤◌, IfSome, true};
ghost use Rattle.cpu_table.specs.Data.{data_of};
ghost use Rattle.sync_words.specs.Access.{IsWithin};
ghost use Rattle.sync_words.specs.Steps.{IsAccepted};
ghost use Rattle.sync_words.specs.declared.event.Want.TheVariants as want;
ghost use Rattle.cpu_program.specs.Processors.{can_run};
ghost use Rattle.cpu_program.specs.Programs.{want_of};

use cpu_program::{Cargo, Program};
use cpu_table::Setup;
use handler_ops::{BoxedDesk, Job};
use sync_words::{Access, Applied, Event, Hand, LOCKED, Want, WordId, apply};

/// What the others hold: the desks by their processors' numbers, and the chair by the number of processors.
#[derive(Drop)]
pub struct Others {
    pub setup: Setup,
    pub things: Vec<Option<Cargo>>,
}

/// The next event of a program, whose access finds this number, with what changes hands. None where it is off, where the access
/// isn't accepted, and where what is to change hands isn't there.
pub fn turn(program: &mut Program, others: &mut Others, found: u32) -> Option<(Event, Hand)> {
    let Want::Access { word, access, hand } = program.want() else {
        return None;
    };
    if found > LOCKED {
        return None;
    }
    let applied = accepted(found, access)?;
    let moved = moved_by(applied, hand);
    if !exchange(word, moved, program, others) {
        return None;
    }
    Some((program.take(applied), moved))
}

// What an access that finds this number was accepted with.
fn accepted(found: u32, access: Access) -> Option<Applied>
    requires found { found ≤ LOCKED }
    requires access { IsWithin access }
    ensures { IfSome result (IsAccepted access) }
{
    let applied = apply(found, access);
    match applied {
        Applied::NotReady { .. } => None,
        _ => Some(applied),
    }
}

// Where the word stays nothing changes hands.
fn moved_by(applied: Applied, hand: Hand) -> Hand {
    match applied {
        Applied::Changed { .. } => hand,
        _ => Hand::Nothing,
    }
}

// What changes hands does so. False where it isn't there.
fn exchange(word: WordId, moved: Hand, program: &mut Program, others: &mut Others) -> bool
    ensures { want_of program.new ≡ want_of program.old }
{
    match moved {
        Hand::Nothing => true,
        Hand::Give(thing) => give(thing, program, others),
        Hand::Take(thing) => take(word, thing, program, others),
    }
}

fn give(thing: u16, program: &mut Program, others: &mut Others) -> bool
    ensures { want_of program.new ≡ want_of program.old }
{
    if !program.can_give() {
        return false;
    }
    let cargo = program.give();
    lay(thing, cargo, others)
}

fn lay(thing: u16, cargo: Cargo, others: &mut Others) -> bool {
    match others.things.get_mut(usize::from(thing)) {
        Some(place) => {
            *place = Some(cargo);
            true
        }
        None => false,
    }
}

fn take(word: WordId, thing: u16, program: &mut Program, others: &mut Others) -> bool
    ensures { want_of program.new ≡ want_of program.old }
{
    match taken(word, thing, others) {
        Some(cargo) => {
            program.receive(cargo);
            true
        }
        None => false,
    }
}

// A desk that comes from the word of its processor's job comes with the job run.
fn taken(word: WordId, thing: u16, others: &mut Others) -> Option<Cargo> {
    let place = others.things.get_mut(usize::from(thing))?;
    let cargo = place.take()?;
    match word {
        WordId::Busy(_) => Some(with_job_run(&others.setup, cargo)),
        _ => Some(cargo),
    }
}

fn with_job_run(setup: &Setup, cargo: Cargo) -> Cargo {
    match cargo {
        Cargo::Desk(mut desk) => {
            run_if_any(setup, &mut desk);
            Cargo::Desk(desk)
        }
        Cargo::Chair(server) => Cargo::Chair(server),
    }
}

// Is it the job of one of the platform's procedures, and still to be run?
fn can_run(setup: &Setup, job: &Job) -> bool
    ensures { result ≡ can_run (data_of setup.now) job.now }
{
    job.done.is_none() && usize::from(job.procedure) < setup.procedures.len()
}

fn run_if_any(setup: &Setup, desk: &mut BoxedDesk) {
    if let Some(job) = desk.get().job {
        if can_run(setup, &job) {
            let _answer = desk.run(setup);
        }
    }
}
