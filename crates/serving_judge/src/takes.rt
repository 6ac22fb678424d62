ghost use Rattle.std.specs.Prelude.{◌≡◌};
ghost use Rattle.serving_place.specs.Due.{due};
ghost use Rattle.serving_place.specs.Progresses.{program_in, place_in, setting_in};
ghost use Rattle.serving_place.specs.Operations.{procedure_place};
ghost use Rattle.serving_place.specs.Serving.{number};
ghost use Rattle.serving_place.specs.Setting.{first_cause};
ghost use Rattle.serving_judge.specs.Tests.{fits_start, fits, collects, opens, operates, does, accepts_own, is_nothing, accepts_run};
ghost use Rattle.serving_judge.specs.Dues.{start_of, start_due, width_of, width_due, saying_of};

use crate::due::due;
use crate::fits::{
    fits_alloc, fits_check, fits_free, fits_read, fits_register, fits_set, fits_start,
    fits_unregister, fits_wait, fits_write, has_ended, has_open, is_done, is_out_on,
};
use crate::next::{Next, StartDue};
use crate::words::{is_collect, is_deep, is_label, is_manage};
use cpu_table::{OpDef, Operand, Text};
use serving_place::{Progress, Saying, State};
use smm_base::HandlerType;
use sync_words::Label;

// The label of an operation that gives a job.
fn fits_job(progress: &Progress, cpu: u16, procedure: &Text, arg: Operand, label: Label) -> bool
    ensures { result ≡ fits_start progress.now.state cpu (procedure_place progress.now.setup.procedures procedure.now) (number progress.now.state arg) label }
{
    let state = &progress.state;
    fits_start(
        state,
        cpu,
        progress.place_of(procedure),
        state.number(arg),
        label,
    )
}

// The own label of an operation.
fn fits(progress: &Progress, op: &OpDef, label: Label) -> bool
    ensures { result ≡ fits progress.now.setup.procedures op.now progress.now.state label }
{
    let state = &progress.state;
    match op {
        OpDef::Set { into, value } => fits_set(*into, state.number(*value), label),
        OpDef::Read {
            cpu,
            reg,
            width,
            ..
        } => fits_read(state, *cpu, *reg, *width, label),
        OpDef::Write {
            cpu,
            reg,
            width,
            value,
        } => fits_write(state, *cpu, *reg, *width, state.number(*value), label),
        OpDef::Start {
            cpu,
            procedure,
            arg,
            ..
        } => fits_job(progress, *cpu, procedure, *arg, label),
        OpDef::Launch {
            cpu,
            procedure,
            arg,
            ..
        } => fits_job(progress, *cpu, procedure, *arg, label),
        OpDef::Check { token } => fits_check(state, state.number(*token), label),
        OpDef::Wait { token, .. } => fits_wait(state, state.number(*token), label),
        OpDef::Alloc { size, .. } => fits_alloc(state, state.number(*size), label),
        OpDef::Free { place } => fits_free(state, state.number(*place), label),
        OpDef::Register { handler, .. } => fits_register(state, *handler, label),
        OpDef::Unregister { handle } => fits_unregister(state, state.number(*handle), label),
        OpDef::Manage { .. } => false,
    }
}

// Before its own label the operation may collect the job of this processor.
fn collects(state: &State, op: &OpDef, c: u16) -> bool
    ensures { result ≡ collects op.now state.now c }
{
    match op {
        OpDef::Read { cpu, .. } => c == *cpu && is_done(state.seat(*cpu)),
        OpDef::Write { cpu, .. } => c == *cpu && is_done(state.seat(*cpu)),
        OpDef::Start { cpu, .. } => c == *cpu && is_done(state.seat(*cpu)),
        OpDef::Launch { cpu, .. } => c == *cpu && is_done(state.seat(*cpu)),
        OpDef::Check { token } => {
            is_out_on(state.token_of(state.number(*token)), c) && is_done(state.seat(c))
        }
        OpDef::Wait { token, .. } => {
            is_out_on(state.token_of(state.number(*token)), c) && is_done(state.seat(c))
        }
        _ => false,
    }
}

fn opens(levels: usize, kind: HandlerType, label: Label) -> bool
    ensures { result ≡ opens levels kind label }
{
    if levels == 0 {
        is_deep(kind, label)
    } else {
        is_manage(kind, label)
    }
}

fn operates(progress: &Progress, op: &OpDef, label: Label) -> bool
    ensures { result ≡ operates progress.now.setup.procedures op.now progress.now.state label }
{
    match label {
        Label::Collect(cpu) => collects(&progress.state, op, cpu),
        _ => fits(progress, op, label),
    }
}

// The label of an operation whose unit has begun, where so many levels are left.
fn does(progress: &Progress, levels: usize, op: &OpDef, label: Label) -> bool
    ensures { result ≡ does progress.now.setup.procedures levels op.now progress.now.state label }
{
    match op {
        OpDef::Manage { kind } => opens(levels, *kind, label),
        _ => operates(progress, op, label),
    }
}

/// The boot processor may say this label next.
pub fn takes(progress: &Progress, label: Label) -> bool
    ensures { result ≡ accepts_own (program_in progress.now) (place_in progress.now) label }
{
    match due(progress) {
        Next::Nothing => false,
        Next::Say(own) => is_label(own, label),
        Next::Collect(cpu) => is_collect(cpu, label) && has_ended(progress.state.seat(cpu)),
        Next::Operation(called) => match progress.operation(called) {
            None => false,
            Some(op) => does(progress, progress.levels(), op, label),
        },
    }
}

/// Nothing is left to say.
pub fn is_over(progress: &Progress) -> bool
    ensures { result ≡ is_nothing (due (program_in progress.now) (place_in progress.now)) }
{
    match due(progress) {
        Next::Nothing => true,
        Next::Say(_) => false,
        Next::Collect(_) => false,
        Next::Operation(called) => progress.operation(called).is_none(),
    }
}

/// Another processor may have run its job with this number next.
pub fn takes_run(progress: &Progress, cpu: u16, job: u32) -> bool
    ensures { result ≡ accepts_run (program_in progress.now) (place_in progress.now) cpu job }
{
    !is_over(progress) && has_open(progress.state.seat(cpu), job)
}

fn start_as(progress: &Progress, cpu: u16, procedure: &Text, is_launch: bool) -> StartDue
    ensures { result ≡ record { cpu = cpu; is_launch = is_launch; cause = first_cause (setting_in progress.now) progress.now.state is_launch cpu (procedure_place progress.now.setup.procedures procedure.now) } }
{
    StartDue {
        cpu,
        is_launch,
        cause: progress.first_cause(is_launch, cpu, progress.place_of(procedure)),
    }
}

fn start_of(progress: &Progress, op: &OpDef) -> Option<StartDue>
    ensures { result ≡ start_of (setting_in progress.now) progress.now.state op.now }
{
    match op {
        OpDef::Start { cpu, procedure, .. } => Some(start_as(progress, *cpu, procedure, false)),
        OpDef::Launch { cpu, procedure, .. } => Some(start_as(progress, *cpu, procedure, true)),
        _ => None,
    }
}

/// The job that the operation that is due is to give. None where it is to give none.
pub fn start_due(progress: &Progress) -> Option<StartDue>
    ensures { result ≡ start_due (setting_in progress.now) progress.now.state (due (program_in progress.now) (place_in progress.now)) }
{
    match due(progress) {
        Next::Operation(called) => match progress.operation(called) {
            None => None,
            Some(op) => start_of(progress, op),
        },
        _ => None,
    }
}

fn width_of(op: &OpDef) -> Option<u8>
    ensures { result ≡ width_of op.now }
{
    match op {
        OpDef::Read { width, .. } => Some(*width),
        _ => None,
    }
}

/// How many bytes the operation that is due reads. None where it is no read.
pub fn width_due(progress: &Progress) -> Option<u8>
    ensures { result ≡ width_due (due (program_in progress.now) (place_in progress.now)) }
{
    match due(progress) {
        Next::Operation(called) => match progress.operation(called) {
            None => None,
            Some(op) => width_of(op),
        },
        _ => None,
    }
}

/// How the label is said: that of a call of the pool by the call.
pub fn saying_of(label: Label) -> Saying
    ensures { result ≡ saying_of label }
{
    match label {
        Label::Alloc { size, .. } => Saying::Allocation(size),
        Label::Free { place, .. } => Saying::Release(place),
        _ => Saying::Known(label),
    }
}
