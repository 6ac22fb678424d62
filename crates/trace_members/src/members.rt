ghost use Rattle.std.specs.Prelude.{◌≡◌, ◌<◌, ◌+◌, length, map, slice_set};
ghost use Rattle.cpu_table.specs.Data.{data_of};
ghost use Rattle.rendezvous_machine.specs.Machines.{is_counted, is_here};
ghost use Rattle.rendezvous_machine.specs.Effects.{enclosed, cleared};
ghost use Rattle.trace_members.specs.Members.{member_in, is_out, is_in, is_waiting, is_gone, each_other, reports, is_let, has_left, has_no_job, all_collected, is_least, count_in, is_finished};
ghost use Rattle.rendezvous_machine.specs.Refusals.{is_open};
ghost use Rattle.trace_members.specs.Changes.{in_phase, in_visit, with_job, with_write, with_run, with_release, with_departure, with_resume};

use crate::member::Member;
use cpu_regs::Cause;
use cpu_table::Setup;
use handler_ops::Job;
use rendezvous_machine::Phase;
use smm_base::{Register, Status};

// ONE PROCESSOR

/// The phase of a processor; one that the platform hasn't is off.
pub fn phase_of(members: &[Member], i: u16) -> Phase
    ensures { result ≡ (member_in members.now i).phase }
{
    match members.get(usize::from(i)) {
        Some(member) => member.phase(),
        None => Phase::Off,
    }
}

pub fn visits_of(members: &[Member], i: u16) -> u32
    ensures { result ≡ (member_in members.now i).visits }
{
    match members.get(usize::from(i)) {
        Some(member) => member.visits(),
        None => 0,
    }
}

pub fn job_of(members: &[Member], i: u16) -> Option<Job>
    ensures { result ≡ (member_in members.now i).job }
{
    match members.get(usize::from(i)) {
        Some(member) => member.job(),
        None => None,
    }
}

pub fn is_enclosed(members: &[Member], i: u16) -> bool
    ensures { result ≡ (member_in members.now i).in_closed_set }
{
    match members.get(usize::from(i)) {
        Some(member) => member.in_closed_set(),
        None => false,
    }
}

pub fn is_released(members: &[Member], i: u16) -> bool
    ensures { result ≡ (member_in members.now i).is_released }
{
    match members.get(usize::from(i)) {
        Some(member) => member.is_released(),
        None => false,
    }
}

pub fn is_out(phase: Phase) -> bool
    ensures { result ≡ is_out phase }
{
    matches!(phase, Phase::Out)
}

pub fn is_in(phase: Phase) -> bool
    ensures { result ≡ is_in phase }
{
    matches!(phase, Phase::In)
}

pub fn is_waiting(phase: Phase) -> bool
    ensures { result ≡ is_waiting phase }
{
    matches!(phase, Phase::Counted)
}

pub fn is_here(phase: Phase) -> bool
    ensures { result ≡ is_here phase }
{
    matches!(phase, Phase::Here)
}

pub fn is_gone(phase: Phase) -> bool
    ensures { result ≡ is_gone phase }
{
    matches!(phase, Phase::Gone)
}

/// The job was run, and isn't collected.
pub fn is_finished(job: Option<Job>) -> bool
    ensures { result ≡ is_finished job }
{
    match job {
        None => false,
        Some(job) => job.done.is_some(),
    }
}

/// The job is still to be run.
pub fn is_open(job: Option<Job>) -> bool
    ensures { result ≡ is_open job }
{
    match job {
        None => false,
        Some(job) => job.done.is_none(),
    }
}

// ALL PROCESSORS

fn is_counted(member: &Member) -> bool
    ensures { result ≡ is_counted member.now }
{
    matches!(member.phase(), Phase::Counted | Phase::Here)
}

fn reports(member: &Member) -> bool
    ensures { result ≡ reports member.now }
{
    !is_counted(member) || is_here(member.phase())
}

fn is_let(member: &Member) -> bool
    ensures { result ≡ is_let member.now }
{
    !member.in_closed_set() || member.is_released()
}

fn has_left(member: &Member) -> bool
    ensures { result ≡ has_left member.now }
{
    !member.in_closed_set() || member.has_departed()
}

fn has_no_job(member: &Member) -> bool
    ensures { result ≡ has_no_job member.now }
{
    member.job().is_none()
}

/// Every member of the session but this processor has reported.
pub fn all_reported(members: &[Member], but: u16) -> bool
    ensures { result ≡ each_other members.now but reports }
{
    members
        .iter()
        .enumerate()
        .all(|(i, member)| i == usize::from(but) || reports(member))
}

/// Every processor of the closed set but this one is released.
pub fn all_released(members: &[Member], but: u16) -> bool
    ensures { result ≡ each_other members.now but is_let }
{
    members
        .iter()
        .enumerate()
        .all(|(i, member)| i == usize::from(but) || is_let(member))
}

/// Every processor of the closed set but this one has departed.
pub fn all_departed(members: &[Member], but: u16) -> bool
    ensures { result ≡ each_other members.now but has_left }
{
    members
        .iter()
        .enumerate()
        .all(|(i, member)| i == usize::from(but) || has_left(member))
}

/// No job is uncollected.
pub fn all_collected(members: &[Member]) -> bool
    ensures { result ≡ all_collected members.now }
{
    members.iter().all(|member| has_no_job(member))
}

/// No processor below this one has an uncollected job.
pub fn is_least(members: &[Member], c: u16) -> bool
    ensures { result ≡ is_least members.now c }
{
    let count = members.len().min(usize::from(c));
    all_collected(&members[..count])
}

/// How many processors are members of the session.
pub fn count_of(members: &[Member]) -> usize
    ensures { result ≡ count_in members.now }
{
    members.iter().filter(|member| is_counted(member)).count()
}

// WHAT BECOMES OF ONE

fn set_phase_at(members: &mut [Member], at: usize, phase: Phase)
    requires { at < length members.old }
    ensures { members.new ≡ in_phase at phase members.old }
{
    members[at].set_phase(phase);
}

#[tactic(auto, using(crate::proofs::Changing::past))]
pub fn set_phase(members: &mut [Member], i: u16, phase: Phase)
    ensures { members.new ≡ in_phase i phase members.old }
{
    if usize::from(i) < members.len() {
        set_phase_at(members, usize::from(i), phase);
    }
}

fn enter_at(members: &mut [Member], at: usize, visit: u32, cause: &Cause)
    requires there { at < length members.old }
    requires visit { visit ≡ (member_in members.old at).visits + 1 }
    ensures { members.new ≡ in_visit at cause.now members.old }
{
    members[at].enter(visit, cause);
}

#[tactic(auto, using(crate::proofs::Changing::past))]
pub fn enter(members: &mut [Member], i: u16, visit: u32, cause: &Cause)
    requires { visit ≡ (member_in members.old i).visits + 1 }
    ensures { members.new ≡ in_visit i cause.now members.old }
{
    if usize::from(i) < members.len() {
        enter_at(members, usize::from(i), visit, cause);
    }
}

fn set_job_at(members: &mut [Member], at: usize, job: Option<Job>)
    requires { at < length members.old }
    ensures { members.new ≡ with_job at job members.old }
{
    members[at].set_job(job);
}

#[tactic(auto, using(crate::proofs::Changing::past))]
pub fn set_job(members: &mut [Member], c: u16, job: Option<Job>)
    ensures { members.new ≡ with_job c job members.old }
{
    if usize::from(c) < members.len() {
        set_job_at(members, usize::from(c), job);
    }
}

fn write_at(
    members: &mut [Member],
    at: usize,
    register: Register,
    width: u32,
    value: u64,
    status: Status,
)
    requires { at < length members.old }
    ensures { members.new ≡ with_write at register width value status members.old }
{
    members[at].write(register, width, value, status);
}

#[tactic(auto, using(crate::proofs::Changing::past))]
pub fn write(
    members: &mut [Member],
    c: u16,
    register: Register,
    width: u32,
    value: u64,
    status: Status,
)
    ensures { members.new ≡ with_write c register width value status members.old }
{
    if usize::from(c) < members.len() {
        write_at(members, usize::from(c), register, width, value, status);
    }
}

fn run_at(members: &mut [Member], at: usize, setup: &Setup, answer: (u64, Status))
    requires { at < length members.old }
    ensures { members.new ≡ with_run (data_of setup.now) at answer members.old }
{
    members[at].run(setup, answer);
}

#[tactic(auto, using(crate::proofs::Changing::past))]
pub fn run(members: &mut [Member], i: u16, setup: &Setup, answer: (u64, Status))
    ensures { members.new ≡ with_run (data_of setup.now) i answer members.old }
{
    if usize::from(i) < members.len() {
        run_at(members, usize::from(i), setup, answer);
    }
}

fn release_at(members: &mut [Member], at: usize)
    requires { at < length members.old }
    ensures { members.new ≡ with_release at members.old }
{
    members[at].release();
}

#[tactic(auto, using(crate::proofs::Changing::past))]
pub fn release(members: &mut [Member], c: u16)
    ensures { members.new ≡ with_release c members.old }
{
    if usize::from(c) < members.len() {
        release_at(members, usize::from(c));
    }
}

fn depart_at(members: &mut [Member], at: usize)
    requires { at < length members.old }
    ensures { members.new ≡ with_departure at members.old }
{
    members[at].depart();
}

#[tactic(auto, using(crate::proofs::Changing::past))]
pub fn depart(members: &mut [Member], i: u16)
    ensures { members.new ≡ with_departure i members.old }
{
    if usize::from(i) < members.len() {
        depart_at(members, usize::from(i));
    }
}

fn resume_at(members: &mut [Member], at: usize)
    requires { at < length members.old }
    ensures { members.new ≡ with_resume at members.old }
{
    members[at].resume();
}

#[tactic(auto, using(crate::proofs::Changing::past))]
pub fn resume(members: &mut [Member], i: u16)
    ensures { members.new ≡ with_resume i members.old }
{
    if usize::from(i) < members.len() {
        resume_at(members, usize::from(i));
    }
}

// WHAT BECOMES OF ALL

fn enclose_at(members: &mut [Member], at: usize)
    requires { at < length members.old }
    ensures { members.new ≡ slice_set members.old at (enclosed (member_in members.old at)) }
{
    members[at].enclose();
}

pub fn enclose_all(members: &mut [Member])
    ensures { members.new ≡ map enclosed members.old }
{
    let count = members.len();
    for i in 0..count {
        enclose_at(members, i);
    }
}

fn clear_at(members: &mut [Member], at: usize)
    requires { at < length members.old }
    ensures { members.new ≡ slice_set members.old at (cleared (member_in members.old at)) }
{
    members[at].clear();
}

pub fn clear_all(members: &mut [Member])
    ensures { members.new ≡ map cleared members.old }
{
    let count = members.len();
    for i in 0..count {
        clear_at(members, i);
    }
}
