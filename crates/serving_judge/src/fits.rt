ghost use Rattle.std.specs.Prelude.{◌≡◌, ◌≤◌};
ghost use Rattle.handler_registry.specs.Registrations.{is_full, is_live};
ghost use Rattle.serving_place.specs.Serving.{seat, token_of};
ghost use Rattle.serving_place.specs.Operations.{free_status, unregister_status};
ghost use Rattle.serving_judge.specs.Tests.{is_free, is_done, has_ended, has_open, is_out_on, read_shows, write_shows, check_shows, wait_shows, alloc_shows, register_shows, is_place, starts, fits_set, fits_read, fits_write, fits_start, fits_check, fits_wait, fits_alloc, fits_free, fits_register, fits_unregister};

use crate::words::{is_register, is_status, register_of};
use serving_place::{Seat, State, TokenState, pool_status};
use smm_base::Status;
use smram_pool::PoolError;
use sync_words::Label;

fn is_free(seat: Seat) -> bool
    ensures { result ≡ is_free seat }
{
    match seat {
        Seat::Free => true,
        Seat::Open(_, _) => false,
        Seat::Done(_, _, _, _) => false,
    }
}

/// The processor's job was run, and is to be collected.
pub fn is_done(seat: Seat) -> bool
    ensures { result ≡ is_done seat }
{
    match seat {
        Seat::Free => false,
        Seat::Open(_, _) => false,
        Seat::Done(_, _, _, _) => true,
    }
}

/// No job is still to be run.
pub fn has_ended(seat: Seat) -> bool
    ensures { result ≡ has_ended seat }
{
    match seat {
        Seat::Free => true,
        Seat::Open(_, _) => false,
        Seat::Done(_, _, _, _) => true,
    }
}

/// The job that is still to be run has this number.
pub fn has_open(seat: Seat, job: u32) -> bool
    ensures { result ≡ has_open seat job }
{
    match seat {
        Seat::Free => false,
        Seat::Open(number, _) => number == job,
        Seat::Done(_, _, _, _) => false,
    }
}

/// The token is out, and this is its job's processor.
pub fn is_out_on(token: TokenState, cpu: u16) -> bool
    ensures { result ≡ is_out_on token cpu }
{
    match token {
        TokenState::NotOut => false,
        TokenState::Uncollected(who) => who == cpu,
        TokenState::Collected(token) => token.cpu == cpu,
    }
}

fn read_shows(seat: Seat, value: u64, status: Status) -> bool
    ensures { result ≡ read_shows seat value status }
{
    match seat {
        Seat::Free => true,
        Seat::Open(_, _) => value == 0 && is_status(Status::NotReady, status),
        Seat::Done(_, _, _, _) => false,
    }
}

fn write_shows(seat: Seat, status: Status) -> bool
    ensures { result ≡ write_shows seat status }
{
    match seat {
        Seat::Free => true,
        Seat::Open(_, _) => is_status(Status::NotReady, status),
        Seat::Done(_, _, _, _) => false,
    }
}

fn check_shows(state: &State, token: TokenState, status: Status) -> bool
    ensures { result ≡ check_shows state.now.seats token status }
{
    match token {
        TokenState::NotOut => is_status(Status::InvalidParameter, status),
        TokenState::Uncollected(cpu) => {
            !is_done(state.seat(cpu)) && is_status(Status::NotReady, status)
        }
        TokenState::Collected(_) => is_status(Status::Success, status),
    }
}

fn wait_shows(token: TokenState, value: u64, status: Status) -> bool
    ensures { result ≡ wait_shows token value status }
{
    match token {
        TokenState::NotOut => value == 0 && is_status(Status::InvalidParameter, status),
        TokenState::Uncollected(_) => false,
        TokenState::Collected(token) => value == token.result && is_status(token.status, status),
    }
}

fn alloc_shows(answer: Result<u64, PoolError>, place: u64, status: Status) -> bool
    ensures { result ≡ alloc_shows answer place status }
{
    match answer {
        Ok(free) => place == free && is_status(Status::Success, status),
        Err(error) => place == 0 && is_status(pool_status(error), status),
    }
}

fn free_status(answer: Result<(), PoolError>) -> Status
    ensures { result ≡ free_status answer }
{
    match answer {
        Ok(()) => Status::Success,
        Err(error) => pool_status(error),
    }
}

fn register_shows(is_full: bool, last: u32, serial: u32, status: Status) -> bool
    ensures { result ≡ register_shows is_full last serial status }
{
    if is_full {
        serial == 0 && is_status(Status::OutOfResources, status)
    } else {
        u64::from(serial) == u64::from(last) + 1 && is_status(Status::Success, status)
    }
}

fn unregister_status(is_live: bool) -> Status
    ensures { result ≡ unregister_status is_live }
{
    if is_live {
        Status::Success
    } else {
        Status::NotFound
    }
}

fn is_place(place: Option<u16>, procedure: u16) -> bool
    ensures { result ≡ is_place place procedure }
{
    match place {
        None => false,
        Some(place) => place == procedure,
    }
}

/// A job that an operation gives.
#[derive(Clone, Copy)]
struct Given {
    cpu: u16,
    job: u32,
    procedure: u16,
    arg: u64,
}

// The job is for this processor, which is the platform's and has none, and its number is the next.
fn starts(state: &State, cpu: u16, place: Option<u16>, arg: u64, given: Given) -> bool
    ensures { result ≡ starts state.now cpu place arg given.cpu given.job given.procedure given.arg }
{
    given.cpu == cpu
        && usize::from(cpu) < state.processors()
        && is_free(state.seat(cpu))
        && u64::from(given.job) == u64::from(state.given()) + 1
        && is_place(place, given.procedure)
        && given.arg == arg
}

pub fn fits_set(into: u8, expected: u64, label: Label) -> bool
    ensures { result ≡ fits_set into expected label }
{
    match label {
        Label::Set { variable, value } => variable == into && value == expected,
        _ => false,
    }
}

pub fn fits_read(state: &State, cpu: u16, reg: u32, bytes: u8, label: Label) -> bool
    ensures { result ≡ fits_read state.now cpu reg bytes label }
{
    match label {
        Label::Read {
            cpu: named,
            register,
            width,
            value,
            status,
        } => {
            named == cpu
                && is_register(register_of(reg), register)
                && width == u32::from(bytes)
                && read_shows(state.seat(cpu), value, status)
        }
        _ => false,
    }
}

pub fn fits_write(state: &State, cpu: u16, reg: u32, bytes: u8, expected: u64, label: Label) -> bool
    ensures { result ≡ fits_write state.now cpu reg bytes expected label }
{
    match label {
        Label::Write {
            cpu: named,
            register,
            width,
            value,
            status,
        } => {
            named == cpu
                && is_register(register_of(reg), register)
                && width == u32::from(bytes)
                && value == expected
                && write_shows(state.seat(cpu), status)
        }
        _ => false,
    }
}

pub fn fits_start(state: &State, cpu: u16, place: Option<u16>, expected: u64, label: Label) -> bool
    ensures { result ≡ fits_start state.now cpu place expected label }
{
    match label {
        Label::Refuse { cpu: named, .. } => named == cpu,
        Label::Start {
            cpu: named,
            job,
            procedure,
            arg,
        } => starts(
            state,
            cpu,
            place,
            expected,
            Given {
                cpu: named,
                job,
                procedure,
                arg,
            },
        ),
        _ => false,
    }
}

pub fn fits_check(state: &State, token: u64, label: Label) -> bool
    ensures { result ≡ fits_check state.now token label }
{
    match label {
        Label::Check { job, status } => {
            job == token && check_shows(state, state.token_of(token), status)
        }
        _ => false,
    }
}

pub fn fits_wait(state: &State, token: u64, label: Label) -> bool
    ensures { result ≡ fits_wait state.now token label }
{
    match label {
        Label::Wait {
            job,
            result_value,
            status,
        } => job == token && wait_shows(state.token_of(token), result_value, status),
        _ => false,
    }
}

pub fn fits_alloc(state: &State, expected: u64, label: Label) -> bool
    ensures { result ≡ fits_alloc state.now expected label }
{
    match label {
        Label::Alloc {
            size,
            place,
            status,
        } => size == expected && alloc_shows(state.pool().alloc_answer(expected), place, status),
        _ => false,
    }
}

pub fn fits_free(state: &State, expected: u64, label: Label) -> bool
    ensures { result ≡ fits_free state.now expected label }
{
    match label {
        Label::Free { place, status } => {
            place == expected && is_status(free_status(state.pool().free_answer(expected)), status)
        }
        _ => false,
    }
}

pub fn fits_register(state: &State, expected: u16, label: Label) -> bool
    ensures { result ≡ fits_register state.now expected label }
{
    match label {
        Label::Register {
            handler,
            serial,
            status,
        } => {
            let registry = state.registrations();
            handler == expected
                && register_shows(registry.is_full(), registry.last(), serial, status)
        }
        _ => false,
    }
}

pub fn fits_unregister(state: &State, expected: u64, label: Label) -> bool
    ensures { result ≡ fits_unregister state.now expected label }
{
    match label {
        Label::Unregister { handle, status } => {
            handle == expected && is_status(unregister_status(state.is_live(expected)), status)
        }
        _ => false,
    }
}
