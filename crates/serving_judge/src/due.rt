ghost use Rattle.std.specs.Prelude.{◌≡◌, []};
ghost use Rattle.serving_place.specs.Places.{levels_left};
ghost use Rattle.serving_place.specs.Due.{due, due_turns, due_in_call, due_in_walks};
ghost use Rattle.serving_place.specs.Progresses.{program_in, place_in, call_of, turns_of};
ghost use Rattle.serving_judge.specs.Dues.{due_as};

use crate::next::Next;
use serving_place::{Called, Pending, Progress, next_handler};
use smi_manage::Manage;
use sync_words::Label;

// Where a handler is being called.
#[tactic(auto, using(crate::proofs::Waiting::left_none, crate::proofs::Waiting::left_some))]
fn due_in_call(progress: &Progress, called: Called) -> Next
    ensures { due_as (program_in progress.now) (levels_left (place_in progress.now).walks) result
        ≡ due_in_call (program_in progress.now) (levels_left (place_in progress.now).walks) called.handler (call_of (program_in progress.now) called).ops progress.now.state.left }
{
    match progress.operation(called) {
        None => Next::Say(Label::Return {
            handler: called.handler,
            status: progress.status_of(called.handler),
        }),
        Some(_) => {
            if progress.state.left() == 0 {
                Next::Say(Label::Spent)
            } else {
                Next::Operation(called)
            }
        }
    }
}

// Where a walk is between two calls.
#[tactic(auto, using(crate::proofs::Waiting::due_turns_is, crate::proofs::Waiting::left_none, crate::proofs::Waiting::left_some))]
fn due_turn(progress: &Progress, manage: Manage) -> Next
    ensures { due_as (program_in progress.now) (levels_left (place_in progress.now).walks) result
        ≡ due_turns manage.kind (turns_of manage) manage.running progress.now.state.registrations progress.now.state.left }
{
    match next_handler(manage, progress.state.registrations()) {
        None => Next::Say(Label::Answer(manage.end())),
        Some(handler) => {
            if progress.state.left() == 0 {
                Next::Say(Label::Spent)
            } else {
                Next::Say(Label::Call(handler))
            }
        }
    }
}

// Where no walk is open.
#[tactic(auto, using(crate::proofs::Waiting::left_none, crate::proofs::Waiting::left_some))]
fn due_entry(progress: &Progress) -> Next
    ensures { due_as (program_in progress.now) (levels_left (place_in progress.now).walks) result
        ≡ due_in_walks (program_in progress.now) (place_in progress.now).kinds [] progress.now.state.registrations progress.now.state.left }
{
    match progress.next_kind() {
        None => Next::Nothing,
        Some(kind) => {
            if progress.state.left() == 0 {
                Next::Say(Label::Spent)
            } else {
                Next::Say(Label::Manage(kind))
            }
        }
    }
}

// Where nothing that was begun is still to be said.
fn due_open(progress: &Progress) -> Next
    ensures { due_as (program_in progress.now) (levels_left (place_in progress.now).walks) result
        ≡ due_in_walks (program_in progress.now) (place_in progress.now).kinds (place_in progress.now).walks progress.now.state.registrations progress.now.state.left }
{
    match progress.top() {
        None => due_entry(progress),
        Some(walk) => match walk.called {
            None => due_turn(progress, walk.manage),
            Some(called) => due_in_call(progress, called),
        },
    }
}

/// What the place waits for.
pub fn due(progress: &Progress) -> Next
    ensures { due_as (program_in progress.now) (levels_left (place_in progress.now).walks) result ≡ due (program_in progress.now) (place_in progress.now) }
{
    match progress.pending {
        Pending::Nothing => due_open(progress),
        Pending::First(wave) => Next::Say(Label::Begin(wave)),
        Pending::Awaited { cpu, .. } => Next::Collect(cpu),
        Pending::Started(called) => match progress.operation(called) {
            Some(_) => Next::Operation(called),
            None => due_open(progress),
        },
    }
}
