ghost use Rattle.std.specs.Prelude.{◌≡◌, ◌<◌, ◌≤◌, ◌-◌, [], IfSome, IsTrue, Some, cond, length, position, replicate, slice_set};
ghost use Rattle.std.specs.List.{filter};
ghost use Rattle.handler_registry.specs.Registrations.{is_full, is_live, unregistered};
ghost use Rattle.smram_pool.specs.State.{allocated, freed};
ghost use Rattle.sync_words.specs.declared.label.Label.TheVariants as say;
ghost use Rattle.serving_place.specs.Serving.{Free, number, put, put_on, seat, given_to, run_at, ran, collected, returned, token_of, with_token, owes_token, owner, dropped, has_token, tokens_out};
ghost use Rattle.serving_place.specs.Operations.{register_on, drop_on, pool_status, free_status, alloc_label};
ghost use Rattle.serving_place.specs.Sayings.{Known, Fits, IsAlloc, IsFreeing, RegisterFits, label_in, said_as};
ghost use Rattle.serving_place.specs.Moves.{operated};
ghost use Rattle.serving_place.specs.Beginning.{cleared};

use crate::saying::Request;
use crate::seat::Seat;
use crate::token::{Token, TokenState, Tokens};
use cpu_table::{OpDef, Operand};
use handler_registry::Registry;
use smm_base::{HandlerType, Status};
use smram_pool::{Pool, PoolError};
use std::marker::Model;
use sync_words::Label;

/// What serving knows: the variables, what is registered, the pool, each processor's uncollected job, how many jobs
/// were given, the tokens of collected jobs, and how many units may still begin.
#[derive(Drop)]
pub struct State {
    variables: [u64; 8],
    registrations: Registry,
    pool: Pool,
    seats: Vec<Seat>,
    given: u32,
    tokens: Tokens,
    left: u32,
}

impl Model for State {
    ghost use Rattle.serving_place.specs.Serving.{Serving};

    ghost Value = { Serving };

    ghost view = { λ s. record { variables = s.variables; registrations = s.registrations; pool = s.pool; seats = s.seats.items; given = s.given; tokens = s.tokens; left = s.left } };

    ghost use Rattle.serving_place.specs.Bounds.{IsBounded};

    ghost invariant = { λ s. IsBounded s.seats.items s.tokens };
}

impl State {
    /// The state of a session that begins with these registrations and this pool.
    pub fn new(
        registrations: Registry,
        pool: Pool,
        seats: Vec<Seat>,
        tokens: Tokens,
        units: u32,
    ) -> State
        requires few { length seats.items ≤ 64 }
        requires free { seats.items ≡ replicate (length seats.items) Free }
        requires fresh { tokens ≡ [] }
        ensures { result ≡ record { variables = replicate 8 0; registrations = registrations; pool = pool; seats = seats.items; given = 0; tokens = tokens; left = units } }
    {
        State {
            variables: [0; 8],
            registrations,
            pool,
            seats,
            given: 0,
            tokens,
            left: units,
        }
    }

    /// A session begins: registrations and pool stay.
    pub fn begin(&mut self, units: u32)
        ensures { self.new ≡ cleared units self.old }
    {
        self.variables = [0; 8];
        make_free(&mut self.seats);
        self.given = 0;
        self.tokens.clear();
        self.left = units;
    }

    /// The number that an operand is.
    pub fn number(&self, operand: Operand) -> u64
        ensures { result ≡ number self.now operand }
    {
        match operand {
            Operand::Number(n) => n,
            Operand::Variable(v) => self.variables.get(usize::from(v)).copied().unwrap_or(0),
        }
    }

    /// The job of a processor; one that the platform hasn't has none.
    pub fn seat(&self, c: u16) -> Seat
        ensures { result ≡ seat self.now c }
    {
        self.seats
            .get(usize::from(c))
            .copied()
            .unwrap_or(Seat::Free)
    }

    /// How many jobs were given in this session.
    pub fn given(&self) -> u32
        ensures { result ≡ self.now.given }
    {
        self.given
    }

    /// How many tokens are out.
    pub fn tokens_out(&self) -> usize
        ensures { result ≡ tokens_out self.now }
    {
        self.tokens.len() + with_tokens(&self.seats)
    }

    /// What became of the token of a job.
    pub fn token_of(&self, job: u64) -> TokenState
        ensures { result ≡ token_of self.now job }
    {
        match self.tokens.of_job(job) {
            Some(token) => TokenState::Collected(token),
            None => match owner(&self.seats, job) {
                Some(c) => TokenState::Uncollected(c),
                None => TokenState::NotOut,
            },
        }
    }

    /// A live registration has this serial number.
    #[tactic(auto, using(crate::proofs::Looks::live_found, crate::proofs::Looks::live_only_given, crate::proofs::Looks::zero_not_live))]
    pub fn is_live(&self, serial: u64) -> bool
        ensures { result ≡ is_live serial self.now.registrations }
    {
        serial <= u64::from(self.registrations.last())
            && serial != 0
            && self.registrations.handler_of(serial as u32).is_some()
    }

    /// The units that may still begin.
    pub fn left(&self) -> u32
        ensures { result ≡ self.now.left }
    {
        self.left
    }

    /// What is registered.
    pub fn registrations(&self) -> &Registry
        ensures { result.now ≡ self.now.registrations }
    {
        &self.registrations
    }

    /// The pool as it is now.
    pub fn pool(&self) -> &Pool
        ensures { result.now ≡ self.now.pool }
    {
        &self.pool
    }

    /// How many processors there are.
    pub fn processors(&self) -> usize
        ensures { result ≡ length self.now.seats }
    {
        self.seats.len()
    }

    /// A unit begins.
    pub fn begin_unit(&mut self)
        requires { 0 < self.old.left }
        ensures { self.new ≡ record self.old { left = self.old.left - 1 } }
    {
        self.left -= 1;
    }

    /// A processor ran its job, with this result and status.
    pub fn run(&mut self, cpu: u16, result_value: u64, status: Status)
        ensures { self.new ≡ ran cpu result_value status self.old }
    {
        let seat = run_at(self.seat(cpu), result_value, status);
        set_seat(&mut self.seats, cpu, seat);
    }

    /// The job of a processor is collected: its token stands on the list then, if it has one.
    pub fn collect(&mut self, cpu: u16)
        ensures { self.new ≡ collected cpu self.old }
    {
        let seat = self.seat(cpu);
        set_seat(&mut self.seats, cpu, Seat::Free);
        add_token(&mut self.tokens, cpu, seat);
    }

    /// The job of a processor is collected, and where its status is SUCCESS a variable takes its result.
    pub fn return_to(&mut self, cpu: u16, into: u8)
        ensures { self.new ≡ returned cpu into self.old }
    {
        let seat = self.seat(cpu);
        self.collect(cpu);
        if let Seat::Done(_, _, result, status) = seat {
            self.put_on(status, into, result);
        }
    }

    fn put(&mut self, into: u8, value: u64)
        ensures { self.new ≡ put into value self.old }
    {
        put_number(&mut self.variables, into, value);
    }

    // Only where the status is SUCCESS.
    fn put_on(&mut self, status: Status, into: u8, value: u64)
        ensures { self.new ≡ put_on status into value self.old }
    {
        if let Status::Success = status {
            self.put(into, value);
        }
    }

    // A processor is given the job with this number.
    fn give(&mut self, cpu: u16, job: u32, has_token: bool)
        requires { IsTrue has_token → tokens_out self.old < 64 }
        ensures { self.new ≡ given_to cpu job has_token self.old }
    {
        set_seat(&mut self.seats, cpu, Seat::Open(job, has_token));
        self.given = job;
    }

    fn drop_on(&mut self, status: Status, job: u64)
        ensures { self.new ≡ drop_on status job self.old }
    {
        if let Status::Success = status {
            self.drop_token(job);
        }
    }

    fn drop_token(&mut self, job: u64)
        ensures { self.new ≡ dropped job self.old }
    {
        self.tokens.drop_job(job);
    }

    fn register_on(&mut self, status: Status, kind: HandlerType, handler: u16)
        requires { RegisterFits status (is_full self.old.registrations) }
        ensures { self.new ≡ register_on status kind handler self.old }
    {
        if let Status::Success = status {
            let _ = self.registrations.register(kind, handler);
        }
    }

    fn unregister(&mut self, handle: u64)
        ensures { self.new ≡ record self.old { registrations = unregistered handle self.old.registrations } }
    {
        unregister(&mut self.registrations, handle);
    }
}

impl State {
    /// An operation says its own label, or the collect of a job before it. A call of the pool is made, and what the pool answers
    /// is said then.
    pub fn operate(&mut self, op: &OpDef, request: &Request, label: &mut Label)
        requires { Fits (said_as request.now label.old) (Some op.now) self.old }
        ensures said { label.new ≡ label_in self.old.pool (said_as request.now label.old) }
        ensures after { self.new ≡ operated op.now self.old (label_in self.old.pool (said_as request.now label.old)) }
    {
        match request {
            Request::Nothing => self.apply(op, label),
            Request::Allocation(size) => self.allocate(op, *size, label),
            Request::Release(place) => self.release(op, *place, label),
        }
    }

    // What the label changes.
    #[tactic(auto, using(crate::proofs::Changes::after_write, crate::proofs::Changes::after_said_write))]
    fn apply(&mut self, op: &OpDef, label: &Label)
        requires { Fits (Known label.now) (Some op.now) self.old }
        ensures { self.new ≡ operated op.now self.old label.now }
    {
        match (op, label) {
            (_, Label::Collect(cpu)) => self.collect(*cpu),
            (OpDef::Set { into, .. }, Label::Set { value, .. }) => self.put(*into, *value),
            (OpDef::Read { into, .. }, Label::Read { value, status, .. }) => {
                self.put_on(*status, *into, *value);
            }
            (OpDef::Start { cpu, .. }, Label::Start { job, .. }) => self.give(*cpu, *job, false),
            (OpDef::Launch { cpu, into, .. }, Label::Start { job, .. }) => {
                self.give(*cpu, *job, true);
                self.put(*into, u64::from(*job));
            }
            (OpDef::Check { .. }, Label::Check { job, status }) => self.drop_on(*status, *job),
            (
                OpDef::Wait { into, .. },
                Label::Wait {
                    job,
                    result_value,
                    status,
                },
            ) => {
                self.drop_token(*job);
                self.put_on(*status, *into, *result_value);
            }
            (
                OpDef::Register {
                    handler,
                    kind,
                    into,
                },
                Label::Register { serial, status, .. },
            ) => {
                self.register_on(*status, *kind, *handler);
                self.put_on(*status, *into, u64::from(*serial));
            }
            (OpDef::Unregister { .. }, Label::Unregister { handle, .. }) => self.unregister(
                *handle,
            ),
            (
                OpDef::Write { .. }
                | OpDef::Alloc { .. }
                | OpDef::Free { .. }
                | OpDef::Manage { .. },
                _,
            ) => {}
            _ => {}
        }
    }

    #[tactic(auto, using(crate::proofs::Changes::refused_put))]
    #[inline(never)]
    fn allocate(&mut self, op: &OpDef, size: u64, label: &mut Label)
        requires { IsAlloc op.now }
        ensures said { label.new ≡ alloc_label size (allocated size self.old.pool).0 }
        ensures after { self.new ≡ operated op.now self.old (alloc_label size (allocated size self.old.pool).0) }
    {
        match self.pool.alloc(size) {
            Ok(place) => {
                if let OpDef::Alloc { into, .. } = op {
                    self.put(*into, place);
                }
                *label = Label::Alloc {
                    size,
                    place,
                    status: Status::Success,
                };
            }
            Err(error) => {
                *label = Label::Alloc {
                    size,
                    place: 0,
                    status: pool_status(error),
                };
            }
        }
    }

    #[inline(never)]
    fn release(&mut self, op: &OpDef, place: u64, label: &mut Label)
        requires { IsFreeing op.now }
        ensures said { label.new ≡ say.Free place (free_status (freed place self.old.pool).0) }
        ensures after { self.new ≡ operated op.now self.old (say.Free place (free_status (freed place self.old.pool).0)) }
    {
        let _ = op;
        let status = match self.pool.free(place) {
            Ok(()) => Status::Success,
            Err(error) => pool_status(error),
        };
        *label = Label::Free { place, status };
    }
}

// The token of a job that is collected, where it has one.
fn add_token(tokens: &mut Tokens, cpu: u16, seat: Seat)
    requires { IsTrue (has_token seat) → length tokens.old < 64 }
    ensures { tokens.new ≡ with_token cpu seat tokens.old }
{
    if let Seat::Done(job, true, result, status) = seat {
        tokens.add(Token {
            job,
            cpu,
            result,
            status,
        });
    }
}

/// The status of a request that the pool refused.
pub fn pool_status(error: PoolError) -> Status
    ensures { result ≡ pool_status error }
{
    match error {
        PoolError::Zero => Status::InvalidParameter,
        PoolError::OutOfResources => Status::OutOfResources,
        PoolError::NotABlock(_) => Status::InvalidParameter,
    }
}

// 0, and a serial number that was not given yet, is that of no live registration.
#[tactic(auto, using(crate::proofs::Changes::not_live_stays, crate::proofs::Changes::not_given_stays, crate::proofs::Changes::zero_stays))]
fn unregister(registry: &mut Registry, handle: u64)
    ensures { registry.new ≡ unregistered handle registry.old }
{
    if handle <= u64::from(registry.last()) && handle != 0 {
        let _ = registry.unregister(handle as u32);
    }
}

#[tactic(auto, using(crate::proofs::Changes::set_past))]
fn put_number(variables: &mut [u64], into: u8, value: u64)
    ensures { variables.new ≡ slice_set variables.old into value }
{
    let place = usize::from(into);
    if place < variables.len() {
        variables[place] = value;
    }
}

fn run_at(seat: Seat, result_value: u64, status: Status) -> Seat
    ensures { result ≡ run_at seat result_value status }
{
    match seat {
        Seat::Free => Seat::Free,
        Seat::Open(job, has_token) => Seat::Done(job, has_token, result_value, status),
        Seat::Done(_, _, _, _) => seat,
    }
}

fn set_seat(seats: &mut Vec<Seat>, cpu: u16, seat: Seat)
    ensures { seats.new.items ≡ slice_set seats.old.items cpu seat }
{
    if let Some(place) = seats.get_mut(usize::from(cpu)) {
        *place = seat;
    }
}

fn make_free(seats: &mut Vec<Seat>)
    ensures { seats.new.items ≡ replicate (length seats.old.items) Free }
{
    seats.fill(Seat::Free);
}

fn has_token(seat: Seat) -> bool
    ensures { result ≡ has_token seat }
{
    match seat {
        Seat::Free => false,
        Seat::Open(_, has_token) => has_token,
        Seat::Done(_, has_token, _, _) => has_token,
    }
}

fn owes_token(seat: Seat, job: u64) -> bool
    ensures { result ≡ owes_token job seat }
{
    match seat {
        Seat::Free => false,
        Seat::Open(number, has_token) => has_token && u64::from(number) == job,
        Seat::Done(number, has_token, _, _) => has_token && u64::from(number) == job,
    }
}

// How many seats have a job with a token.
fn with_tokens(seats: &[Seat]) -> usize
    requires { length seats.now ≤ 64 }
    ensures value { result ≡ length (filter has_token seats.now) }
    ensures few { result ≤ 64 }
{
    let mut count = 0;
    for seat in seats {
        count += one_if(has_token(*seat));
    }
    count
}

fn one_if(test: bool) -> usize
    ensures value { result ≡ cond test 1 0 }
    ensures few { result ≤ 1 }
{
    if test { 1 } else { 0 }
}

// The first processor whose uncollected job is this one and has a token.
#[tactic(auto, using(crate::proofs::Lists::owner_is))]
fn owner(seats: &[Seat], job: u64) -> Option<u16>
    requires { length seats.now ≤ 64 }
    ensures { result ≡ owner job seats.now }
{
    match place_of(seats, job) {
        Some(place) => Some(place as u16),
        None => None,
    }
}

fn place_of(seats: &[Seat], job: u64) -> Option<usize>
    ensures place { result ≡ position (owes_token job) seats.now }
    ensures within { IfSome result (λ place. place < length seats.now) }
{
    seats.iter().position(|seat| owes_token(*seat, job))
}
