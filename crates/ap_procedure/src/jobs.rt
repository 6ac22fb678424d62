ghost use Rattle.std.specs.Prelude.{◌≡◌, ◌+◌, ◌<◌, ◌≤◌, ◌-◌, ◌↔◌, true, IsTrue, IsSome, IsErr, IfOk, OnOk, OnErr, length, replicate, slice_index_or, Some, None};
ghost use Rattle.ap_procedure.specs.declared.token.Token.{Token};
ghost use Rattle.ap_procedure.specs.declared.token.TokenState.TheVariants.{Open};
ghost use Rattle.ap_procedure.specs.Steps.{AreGiven};
ghost use Rattle.ap_procedure.specs.Given.{no_jobs, job_at, state_of, is_refused, issued, assigned, collected, dropped, IsRising};

use crate::token::{Token, TokenState};
use crate::tokens::{MOST_TOKENS, Tokens};
use smm_base::{NoMemory, Status};
use std::alloc::{AllocError, Global};
use std::fmt;
use std::marker::Model;

/// Why a job is not given.
#[derive(Clone, Copy, Debug, PartialEq, Eq)]
pub enum Refused {
    /// A token is asked for, and 64 are out.
    Tokens,
}

/// Writes `tokens`.
impl fmt::Display for Refused {
    ghost use Rattle.std.specs.Prelude.{Some, codes};

    ghost output = { λ _. Some (codes "tokens") };

    fn fmt<W: fmt::Write>(&self, f: &mut fmt::Formatter<W>) -> fmt::Result {
        match self {
            Refused::Tokens => f.write_str("tokens"),
        }
    }
}

/// The jobs that processors were given in a session, and the tokens by which they are asked for.
#[derive(Drop)]
pub struct Jobs {
    // For each processor the number of its uncollected job.
    uncollected: Vec<Option<u32>>,
    tokens: Tokens,
    // How many jobs were given.
    given: u32,
}

impl Model for Jobs {
    ghost use Rattle.ap_procedure.specs.Given.{GivenJobs};
    ghost use Rattle.ap_procedure.specs.Steps.{AreGiven};

    ghost Value = { GivenJobs };

    ghost view = { λ j. record { uncollected = j.uncollected.items; tokens = j.tokens; given = j.given } };

    ghost invariant = { λ j. AreGiven (record { uncollected = j.uncollected.items; tokens = j.tokens; given = j.given }) };
}

impl Jobs {
    /// No jobs of this many processors, and room for 64 tokens. The other calls take no memory.
    pub fn new(alloc: Global, n: u16) -> Result<Jobs, NoMemory>
        ensures none { IfOk result (λ jobs. jobs ≡ no_jobs n) }
    {
        let uncollected = none_of(alloc, usize::from(n))?;
        let tokens = Tokens::new(alloc)?;
        Ok(Jobs {
            uncollected,
            tokens,
            given: 0,
        })
    }

    /// Gives the processor a job, with a token or without. The answer is the job's number: how many
    /// were given since `new` or the last `clear`, this one among them. `Tokens` exactly where a
    /// token is asked for and 64 are out; then nothing changes.
    pub fn give(&mut self, cpu: u16, with_token: bool) -> Result<u32, Refused>
        requires below { cpu < length self.old.uncollected }
        requires free { job_at cpu self.old ≡ None }
        requires numbered { self.old.given < 4294967295 }
        ensures number { IfOk result (λ number. number ≡ self.old.given + 1) }
        ensures assigned { OnOk result (self.new ≡ assigned cpu with_token self.old) }
        ensures tokens { IsErr result ↔ IsTrue (is_refused with_token self.old) }
        ensures refused { OnErr result (self.new ≡ self.old) }
    {
        if with_token && self.tokens.len() == MOST_TOKENS {
            return Err(Refused::Tokens);
        }
        let job = self.given + 1;
        issue(&mut self.tokens, with_token, job, cpu);
        self.uncollected[usize::from(cpu)] = Some(job);
        self.given = job;
        Ok(job)
    }

    /// Collects the processor's job, which it ran with this result and status. The job's token,
    /// where one is out, is finished with them.
    pub fn collect(&mut self, cpu: u16, outcome: u64, status: Status)
        requires { IsSome (job_at cpu self.old) }
        ensures { self.new ≡ collected cpu outcome status self.old }
    {
        let place = usize::from(cpu);
        if let Some(job) = self.uncollected[place] {
            self.uncollected[place] = None;
            self.tokens.finish(job, outcome, status);
        }
    }

    /// What the token of this job tells. None where no token of that job is out.
    pub fn token(&self, job: u32) -> Option<TokenState>
        ensures { result ≡ state_of job self.now.tokens }
    {
        self.tokens.state_of(job)
    }

    /// Takes the token of this job back, where one is out. Else nothing changes.
    pub fn drop_token(&mut self, job: u32)
        ensures { self.new ≡ dropped job self.old }
    {
        self.tokens.remove(job);
    }

    /// Drops all jobs and tokens. The next job has the number 1.
    pub fn clear(&mut self)
        ensures { self.new ≡ no_jobs (length self.old.uncollected) }
    {
        make_none(&mut self.uncollected);
        self.tokens.clear();
        self.given = 0;
    }

    /// The number of the processor's uncollected job. None where it has none.
    pub fn job_of(&self, cpu: u16) -> Option<u32>
        ensures { result ≡ job_at cpu self.now }
    {
        job_in(self.uncollected.as_slice(), cpu)
    }

    /// How many tokens are out, at most 64.
    pub fn tokens(&self) -> u32
        ensures count { result ≡ length self.now.tokens }
        ensures few { length self.now.tokens ≤ 64 }
        ensures given { AreGiven self.now }
    {
        self.tokens.len() as u32
    }
}

// No job for each of so many processors.
fn none_of(alloc: Global, n: usize) -> Result<Vec<Option<u32>>, AllocError>
    ensures { IfOk result (λ jobs. jobs.items ≡ replicate n None) }
{
    let mut jobs = Vec::new(alloc);
    jobs.resize(n, None)?;
    Ok(jobs)
}

fn make_none(jobs: &mut Vec<Option<u32>>)
    ensures { jobs.new.items ≡ replicate (length jobs.old.items) None }
{
    jobs.fill(None);
}

fn job_in(jobs: &[Option<u32>], cpu: u16) -> Option<u32>
    ensures { result ≡ slice_index_or jobs.now cpu None }
{
    match jobs.get(usize::from(cpu)) {
        Some(job) => *job,
        None => None,
    }
}

fn issue(tokens: &mut Tokens, with_token: bool, job: u32, cpu: u16)
    requires room { with_token ≡ true → length tokens.old < 64 }
    requires numbered { 0 < job }
    requires later { IsRising 0 (job - 1) tokens.old }
    ensures { tokens.new ≡ issued with_token (record { job = job; state = Open cpu }) tokens.old }
{
    if with_token {
        tokens.push(Token {
            job,
            state: TokenState::Open(cpu),
        });
    }
}
