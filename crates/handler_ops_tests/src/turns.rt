ghost use Rattle.std.specs.Prelude.{◌≡◌, true};
ghost use Rattle.cpu_table.specs.Data.{data_of};
ghost use Rattle.handler_ops.specs.Answering.{HasTold, is_at_hand};
ghost use Rattle.handler_ops_tests.specs.Runs.{can_run};

use cpu_table::Setup;
use handler_ops::{BoxedDesk, Desks, Held, Job, Need, Server};
use sync_words::Label;

/// The other processors, with their desks.
#[derive(Drop)]
pub struct Others {
    pub setup: Setup,
    pub desks: Desks,
}

/// The next need and the label of its event, whose access finds this number. None where the desk that is looked at isn't held.
pub fn turn(
    server: &mut Server,
    held: &mut Held,
    others: &mut Others,
    found: u32,
) -> Option<(Need, Label)> {
    let need = tell(server, held);
    exchange(need, found, &mut held.desks, others);
    if server.is_at_hand(&held.desks) {
        let label = answered(server, found, held);
        Some((need, label))
    } else {
        None
    }
}

#[tactic(auto, using(crate::proofs::Tellings::told_has))]
fn tell(server: &mut Server, held: &mut Held) -> Need
    ensures { HasTold server.new }
{
    server.next(held)
}

fn answered(server: &mut Server, found: u32, held: &mut Held) -> Label
    requires told { HasTold server.old }
    requires at_hand { is_at_hand server.old.told held.old.desks ≡ true }
{
    let label = server.answer(found, held);
    label
}

// The desk that the access takes or gives changes hands.
fn exchange(need: Need, found: u32, held: &mut Desks, others: &mut Others) {
    match need {
        Need::ClaimPresent(cpu) if found == 1 => move_desk(cpu, &mut others.desks, held),
        Need::ClaimBusy(cpu) if found == 2 => take_run(cpu, others, held),
        Need::AwaitBusy(cpu) if found == 2 => take_run(cpu, others, held),
        Need::RaiseRun(cpu) => move_desk(cpu, held, &mut others.desks),
        _ => (),
    }
}

fn move_desk(cpu: u16, from: &mut Desks, to: &mut Desks) {
    if let Some(desk) = from.take(cpu) {
        put_if_any(cpu, desk, to);
    }
}

// The desk of a processor that ran its job.
fn take_run(cpu: u16, others: &mut Others, held: &mut Desks) {
    if let Some(mut desk) = others.desks.take(cpu) {
        run_if_any(&others.setup, &mut desk);
        put_if_any(cpu, desk, held);
    }
}

fn put_if_any(cpu: u16, desk: BoxedDesk, to: &mut Desks) {
    if usize::from(cpu) < to.len() {
        to.put(cpu, desk);
    }
}

// Is it the job of one of the platform's procedures, and still to be run?
fn can_run(setup: &Setup, job: &Job) -> bool
    ensures { result ≡ can_run (data_of setup.now) job.now }
{
    job.done.is_none() && usize::from(job.procedure) < setup.procedures.len()
}

fn run_if_any(setup: &Setup, desk: &mut BoxedDesk) {
    if let Some(job) = desk.get().job {
        if can_run(setup, &job) {
            let _answer = desk.run(setup);
        }
    }
}
