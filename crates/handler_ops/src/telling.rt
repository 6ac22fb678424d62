ghost use Rattle.std.specs.Prelude.{◌≡◌, ◌<◌, ◌+◌, ◌-◌, None, [], replicate, unwrap_or, true, false};
ghost use Rattle.handler_registry.specs.Registrations.{is_full, is_live};
ghost use Rattle.save_state_access.specs.Reading.{read_answer};
ghost use Rattle.sync_words.specs.declared.label.Label.TheVariants as say;
ghost use Rattle.sync_words.specs.declared.label.StartRefusal.TheVariants as cause;
ghost use Rattle.handler_ops.specs.declared.row.Row.TheVariants as row;
ghost use Rattle.serving_place.specs.Serving.{seat, token_of, number};
ghost use Rattle.serving_place.specs.Operations.{register_of, procedure_place, unregister_status};
ghost use Rattle.serving_place.specs.Places.{levels_left};
ghost use Rattle.serving_place.specs.Due.{due_turns, due_in_call, due_in_walks};
ghost use Rattle.handler_ops.specs.Course.{reach, has_job, is_held, read_label, write_label, write_of, blank, register_label, open_label};
ghost use Rattle.serving_place.specs.Progresses.{setting_in, program_in, place_in, call_of, turns_of};
ghost use Rattle.handler_ops.specs.Sessions.{course_in};
ghost use Rattle.handler_ops.specs.NextRow.{reading_row, writing_row, start_row, starting_row, checking_row, waiting_row, operation_row, due_row, row_of};

use crate::held::Desks;
use crate::reach::Reach;
use crate::row::Row;
use cpu_table::{OpDef, Operand, Text};
use serving_place::{Called, Pending, Progress, Seat, TokenState, next_handler};
use smi_manage::Manage;
use smm_base::{HandlerType, Register, Status};
use sync_words::{Label, StartRefusal};

fn register_of(reg: u32) -> Register
    ensures { result ≡ register_of reg }
{
    Register::numbered(reg).unwrap_or(Register::Rax)
}

pub fn read_label(cpu: u16, reg: u32, width: u8, value: u64, status: Status) -> Label
    ensures { result ≡ read_label cpu reg width value status }
{
    Label::Read {
        cpu,
        register: register_of(reg),
        width: u32::from(width),
        value,
        status,
    }
}

pub fn write_label(cpu: u16, reg: u32, width: u8, value: u64, status: Status) -> Label
    ensures { result ≡ write_label cpu reg width value status }
{
    Label::Write {
        cpu,
        register: register_of(reg),
        width: u32::from(width),
        value,
        status,
    }
}

// The status of a read of a processor that isn't present. It has no image, and none is looked at.
fn absent_read(id: u64, reg: u32, width: u8) -> Status
    ensures { result ≡ (read_answer blank false id reg (replicate width 0)).status }
{
    let _ = id;
    if width == 0 {
        Status::InvalidParameter
    } else if reg == Register::ProcessorId.number() {
        Status::NotFound
    } else {
        Status::InvalidParameter
    }
}

// The status of a write to a processor that isn't present.
#[tactic(auto, using(crate::proofs::Dues::low_length))]
fn absent_write(reg: u32, width: u8, value: u64) -> Status
    ensures { result ≡ (write_of false blank reg width value).status }
{
    if width == 0 {
        Status::InvalidParameter
    } else if reg == Register::ProcessorId.number() {
        Status::Success
    } else {
        Status::InvalidParameter
    }
}

fn has_job(seat: Seat) -> bool
    ensures { result ≡ has_job seat }
{
    match seat {
        Seat::Free => false,
        Seat::Open(_, _) => true,
        Seat::Done(_, _, _, _) => true,
    }
}

fn open_label(levels: usize, kind: HandlerType) -> Label
    ensures { result ≡ open_label levels kind }
{
    if levels == 0 {
        Label::Deep(kind)
    } else {
        Label::Manage(kind)
    }
}

// Where the image of a processor is to be had.
fn reach(progress: &Progress, held: &Desks, c: u16) -> Reach
    ensures { result ≡ reach (setting_in progress.now) held.now progress.now.state c }
{
    if c >= progress.setup.processors {
        Reach::Outside
    } else if c == progress.me || held.is_held(c) {
        Reach::AtHand
    } else if has_job(progress.state.seat(c)) {
        Reach::Working
    } else {
        Reach::Elsewhere
    }
}

fn reading(progress: &Progress, held: &Desks, cpu: u16, reg: u32, width: u8, told: &mut Row)
    ensures { told.new ≡ reading_row (setting_in progress.now) held.now progress.now.state cpu reg width }
{
    match reach(progress, held, cpu) {
        Reach::Outside => {
            *told = Row::Looking(read_label(cpu, reg, width, 0, Status::InvalidParameter));
        }
        Reach::AtHand => *told = Row::Reading { cpu, reg, width },
        Reach::Working => {
            *told = Row::ClaimingJob(cpu, read_label(cpu, reg, width, 0, Status::NotReady));
        }
        Reach::Elsewhere => {
            let status = absent_read(progress.id_of(cpu), reg, width);
            *told = Row::ClaimingDesk(cpu, read_label(cpu, reg, width, 0, status));
        }
    }
}

fn writing(
    progress: &Progress,
    held: &Desks,
    cpu: u16,
    reg: u32,
    width: u8,
    value: u64,
    told: &mut Row,
)
    ensures { told.new ≡ writing_row (setting_in progress.now) held.now progress.now.state cpu reg width value }
{
    match reach(progress, held, cpu) {
        Reach::Outside => {
            *told = Row::Looking(write_label(cpu, reg, width, value, Status::InvalidParameter));
        }
        Reach::AtHand => {
            *told = Row::Writing {
                cpu,
                reg,
                width,
                value,
            };
        }
        Reach::Working => {
            *told = Row::ClaimingJob(cpu, write_label(cpu, reg, width, value, Status::NotReady));
        }
        Reach::Elsewhere => {
            let status = absent_write(reg, width, value);
            *told = Row::ClaimingDesk(cpu, write_label(cpu, reg, width, value, status));
        }
    }
}

// The start rule, where no cause refuses. The row that collects a job before it is there, and stays where there is one.
fn started(
    progress: &Progress,
    held: &Desks,
    cpu: u16,
    place: Option<u16>,
    arg: u64,
    told: &mut Row,
)
    requires { progress.now.state.given < 4294967295 }
    ensures { told.new ≡ start_row None (has_job (seat progress.now.state cpu)) (is_held held.now cpu) progress.now.marked cpu
        told.old (say.Start cpu (progress.now.state.given + 1) (unwrap_or place 0) arg) }
{
    if has_job(progress.state.seat(cpu)) {
        // The row that collects it is there.
    } else if !held.is_held(cpu) {
        *told = Row::ClaimingDesk(
            cpu,
            Label::Refuse {
                cpu,
                cause: StartRefusal::Absent,
            },
        );
    } else if progress.marked {
        *told = Row::Raising(
            cpu,
            Label::Start {
                cpu,
                job: progress.state.given() + 1,
                procedure: place.unwrap_or(0),
                arg,
            },
        );
    } else {
        *told = Row::Putting(cpu);
    }
}

fn starting(
    progress: &Progress,
    held: &Desks,
    with_token: bool,
    cpu: u16,
    place: Option<u16>,
    arg: u64,
    told: &mut Row,
)
    requires { progress.now.state.given < 4294967295 }
    ensures { told.new ≡ starting_row (setting_in progress.now) held.now progress.now.state progress.now.marked with_token cpu place arg told.old }
{
    match progress.first_cause(with_token, cpu, place) {
        Some(cause) => *told = Row::Looking(Label::Refuse { cpu, cause }),
        None => started(progress, held, cpu, place, arg, told),
    }
}

fn checking(progress: &Progress, job: u64, told: &mut Row)
    ensures { told.new ≡ checking_row (token_of progress.now.state job) job }
{
    match progress.state.token_of(job) {
        TokenState::NotOut => {
            *told = Row::Looking(Label::Check {
                job,
                status: Status::InvalidParameter,
            });
        }
        TokenState::Uncollected(c) => {
            *told = Row::ClaimingJob(
                c,
                Label::Check {
                    job,
                    status: Status::NotReady,
                },
            );
        }
        TokenState::Collected(_) => {
            *told = Row::Looking(Label::Check {
                job,
                status: Status::Success,
            });
        }
    }
}

fn waiting(progress: &Progress, job: u64, told: &mut Row)
    ensures { told.new ≡ waiting_row (token_of progress.now.state job) job }
{
    match progress.state.token_of(job) {
        TokenState::NotOut => {
            *told = Row::Looking(Label::Wait {
                job,
                result_value: 0,
                status: Status::InvalidParameter,
            });
        }
        TokenState::Uncollected(c) => *told = Row::AwaitingJob(c),
        TokenState::Collected(token) => {
            *told = Row::Looking(Label::Wait {
                job,
                result_value: token.result,
                status: token.status,
            });
        }
    }
}

#[inline(never)]
fn register_row(progress: &Progress, handler: u16, told: &mut Row)
    ensures { told.new ≡ row.Looking (register_label (is_full progress.now.state.registrations) handler progress.now.state.registrations.last) }
{
    if progress.state.registrations().is_full() {
        *told = Row::Looking(Label::Register {
            handler,
            serial: 0,
            status: Status::OutOfResources,
        });
    } else {
        *told = Row::Looking(Label::Register {
            handler,
            serial: progress.state.registrations().last() + 1,
            status: Status::Success,
        });
    }
}

#[inline(never)]
fn unregister_row(progress: &Progress, handle: Operand, told: &mut Row)
    ensures { told.new ≡ row.Looking (say.Unregister (number progress.now.state handle) (unregister_status (is_live (number progress.now.state handle) progress.now.state.registrations))) }
{
    let handle = progress.state.number(handle);
    let status = if progress.state.is_live(handle) {
        Status::Success
    } else {
        Status::NotFound
    };
    *told = Row::Looking(Label::Unregister { handle, status });
}

// The row of a start that waits: the result of the processor's job goes to a variable.
#[inline(never)]
fn start_row(
    progress: &Progress,
    held: &Desks,
    cpu: u16,
    procedure: &Text,
    arg: Operand,
    told: &mut Row,
)
    requires { progress.now.state.given < 4294967295 }
    ensures { told.new ≡ starting_row (setting_in progress.now) held.now progress.now.state progress.now.marked false cpu
        (procedure_place progress.now.setup.procedures procedure.now) (number progress.now.state arg) (row.AwaitingJob cpu) }
{
    let place = progress.place_of(procedure);
    let arg = progress.state.number(arg);
    *told = Row::AwaitingJob(cpu);
    starting(progress, held, false, cpu, place, arg, told);
}

// The row of a start that gives a token.
#[inline(never)]
fn launch_row(
    progress: &Progress,
    held: &Desks,
    cpu: u16,
    procedure: &Text,
    arg: Operand,
    told: &mut Row,
)
    requires { progress.now.state.given < 4294967295 }
    ensures { told.new ≡ starting_row (setting_in progress.now) held.now progress.now.state progress.now.marked true cpu
        (procedure_place progress.now.setup.procedures procedure.now) (number progress.now.state arg) (row.ClaimingJob cpu (say.Refuse cpu cause.Busy)) }
{
    let place = progress.place_of(procedure);
    let arg = progress.state.number(arg);
    let busy = Label::Refuse {
        cpu,
        cause: StartRefusal::Busy,
    };
    *told = Row::ClaimingJob(cpu, busy);
    starting(progress, held, true, cpu, place, arg, told);
}

fn set_row(progress: &Progress, variable: u8, value: Operand, told: &mut Row)
    ensures { told.new ≡ row.Looking (say.Set variable (number progress.now.state value)) }
{
    *told = Row::Looking(Label::Set {
        variable,
        value: progress.state.number(value),
    });
}

// The row of an operation that has begun, where so many levels are left.
fn operation_row(progress: &Progress, held: &Desks, levels: usize, op: &OpDef, told: &mut Row)
    requires { progress.now.state.given < 4294967295 }
    ensures { told.new ≡ operation_row (setting_in progress.now) held.now progress.now.state progress.now.marked levels op.now }
{
    match op {
        OpDef::Set { into, value } => set_row(progress, *into, *value, told),
        OpDef::Read {
            cpu,
            reg,
            width,
            ..
        } => reading(progress, held, *cpu, *reg, *width, told),
        OpDef::Write {
            cpu,
            reg,
            width,
            value,
        } => {
            let value = progress.state.number(*value);
            writing(progress, held, *cpu, *reg, *width, value, told);
        }
        OpDef::Start {
            cpu,
            procedure,
            arg,
            ..
        } => start_row(progress, held, *cpu, procedure, *arg, told),
        OpDef::Launch {
            cpu,
            procedure,
            arg,
            ..
        } => launch_row(progress, held, *cpu, procedure, *arg, told),
        OpDef::Check { token } => checking(progress, progress.state.number(*token), told),
        OpDef::Wait { token, .. } => waiting(progress, progress.state.number(*token), told),
        OpDef::Alloc { size, .. } => *told = Row::Allocating(progress.state.number(*size)),
        OpDef::Free { place } => *told = Row::Freeing(progress.state.number(*place)),
        OpDef::Register { handler, .. } => register_row(progress, *handler, told),
        OpDef::Unregister { handle } => unregister_row(progress, *handle, told),
        OpDef::Manage { kind } => *told = Row::Looking(open_label(levels, *kind)),
    }
}

// The row where a handler is being called.
#[tactic(auto, using(crate::proofs::Dues::left_none, crate::proofs::Dues::left_some))]
fn call_row(progress: &Progress, held: &Desks, called: Called, told: &mut Row)
    requires { progress.now.state.given < 4294967295 }
    ensures { told.new ≡ due_row (setting_in progress.now) held.now progress.now.state progress.now.marked
        (due_in_call (program_in progress.now) (levels_left (place_in progress.now).walks) called.handler (call_of (program_in progress.now) called).ops progress.now.state.left) }
{
    match progress.operation(called) {
        None => {
            *told = Row::Looking(Label::Return {
                handler: called.handler,
                status: progress.status_of(called.handler),
            });
        }
        Some(op) => {
            if progress.state.left() == 0 {
                *told = Row::Looking(Label::Spent);
            } else {
                operation_row(progress, held, progress.levels(), op, told);
            }
        }
    }
}

// The row where a walk is between two calls.
#[tactic(auto, using(crate::proofs::Dues::due_turns_is, crate::proofs::Dues::left_none, crate::proofs::Dues::left_some))]
fn turn_row(progress: &Progress, held: &Desks, manage: Manage, told: &mut Row)
    ensures { told.new ≡ due_row (setting_in progress.now) held.now progress.now.state progress.now.marked (due_turns manage.kind (turns_of manage) manage.running progress.now.state.registrations progress.now.state.left) }
{
    match next_handler(manage, progress.state.registrations()) {
        None => *told = Row::Looking(Label::Answer(manage.end())),
        Some(handler) => {
            if progress.state.left() == 0 {
                *told = Row::Looking(Label::Spent);
            } else {
                *told = Row::Looking(Label::Call(handler));
            }
        }
    }
}

// The row where no walk is open.
#[tactic(auto, using(crate::proofs::Dues::left_none, crate::proofs::Dues::left_some))]
#[inline(never)]
fn entry_row(progress: &Progress, held: &Desks, told: &mut Row)
    ensures { told.new ≡ due_row (setting_in progress.now) held.now progress.now.state progress.now.marked (due_in_walks (program_in progress.now) (place_in progress.now).kinds [] progress.now.state.registrations progress.now.state.left) }
{
    match progress.next_kind() {
        None => *told = Row::Finished,
        Some(kind) => {
            if progress.state.left() == 0 {
                *told = Row::Looking(Label::Spent);
            } else {
                *told = Row::Looking(Label::Manage(kind));
            }
        }
    }
}

// The row where nothing that was begun is still to be said.
fn open_row(progress: &Progress, held: &Desks, told: &mut Row)
    requires { progress.now.state.given < 4294967295 }
    ensures { told.new ≡ due_row (setting_in progress.now) held.now progress.now.state progress.now.marked
        (due_in_walks (program_in progress.now) (place_in progress.now).kinds (place_in progress.now).walks progress.now.state.registrations progress.now.state.left) }
{
    match progress.top() {
        None => entry_row(progress, held, told),
        Some(walk) => match walk.called {
            None => turn_row(progress, held, walk.manage, told),
            Some(called) => call_row(progress, held, called, told),
        },
    }
}

// The row of the course, with these desks held.
pub fn row_of(progress: &Progress, held: &Desks, told: &mut Row)
    requires { progress.now.state.given < 4294967295 }
    ensures { told.new ≡ row_of (setting_in progress.now) held.now (course_in progress.now) }
{
    match progress.pending {
        Pending::Nothing => open_row(progress, held, told),
        Pending::First(wave) => *told = Row::Looking(Label::Begin(wave)),
        Pending::Awaited { cpu, .. } => *told = Row::AwaitingJob(cpu),
        Pending::Started(called) => match progress.operation(called) {
            Some(op) => operation_row(progress, held, progress.levels(), op, told),
            None => open_row(progress, held, told),
        },
    }
}
