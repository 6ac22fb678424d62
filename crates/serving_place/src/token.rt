ghost use Rattle.std.specs.Prelude.{◌≡◌, ◌<◌, ◌≤◌, ◌==◌, ◌∷◌, [], IfOk, Some, cond, length, not, reverse, vec_capacity};
ghost use Rattle.std.specs.List.{filter, find};

use smm_base::{NoMemory, Status};
use std::alloc::Global;
use std::marker::Model;

/// The most tokens that are out at once.
pub const MOST_TOKENS: usize = 64;

/// The token of a job that was collected, with the job's processor, result and status.
#[derive(Clone, Copy)]
pub struct Token {
    pub job: u32,
    pub cpu: u16,
    pub result: u64,
    pub status: Status,
}

/// What became of a token.
#[derive(Clone, Copy)]
pub enum TokenState {
    /// None is out.
    NotOut,
    /// Its job, which this processor has, isn't collected.
    Uncollected(u16),
    /// Its job was collected.
    Collected(Token),
}

/// The tokens of collected jobs, with room for 64. The one whose job was collected last comes first.
#[derive(Drop)]
pub struct Tokens {
    // The first one is the last here.
    tokens: Vec<Token>,
}

impl Model for Tokens {
    ghost use Rattle.std.specs.Prelude.{List, length, reverse, vec_capacity, ◌≤◌};
    ghost use Rattle.serving_place.specs.declared.token.Token.{Token};

    ghost Value = { List Token };

    ghost view = { λ t. reverse t.tokens.items };

    ghost invariant = { λ t. (64 ≤ vec_capacity t.tokens) × (length t.tokens.items ≤ 64) };
}

impl Tokens {
    /// No tokens. The other calls take no memory.
    pub fn new(alloc: Global) -> Result<Tokens, NoMemory>
        ensures { IfOk result (λ tokens. tokens ≡ []) }
    {
        let tokens = Vec::with_capacity(alloc, MOST_TOKENS)?;
        Ok(Tokens { tokens })
    }

    /// How many tokens of collected jobs there are.
    pub fn len(&self) -> usize
        ensures len { result ≡ length self.now }
        ensures few { length self.now ≤ 64 }
    {
        self.tokens.len()
    }

    /// Drops all tokens.
    pub fn clear(&mut self)
        ensures { self.new ≡ [] }
    {
        self.tokens.clear();
    }

    /// Adds a token at the front.
    pub fn add(&mut self, token: Token)
        requires { length self.old < 64 }
        ensures { self.new ≡ token ∷ self.old }
    {
        self.tokens.push_reserved(token);
    }

    /// Drops the tokens of this job.
    #[tactic(auto, using(crate::proofs::Lists::filter_reverse))]
    pub fn drop_job(&mut self, job: u64)
        ensures dropped { self.new ≡ filter (λ t. not (t.job == job)) self.old }
        ensures few { length self.new ≤ length self.old }
    {
        remove_job(&mut self.tokens, job);
    }

    /// The first token of this job. None where there is none.
    pub fn of_job(&self, job: u64) -> Option<Token>
        ensures { result ≡ find (λ t. t.job == job) self.now }
    {
        last_of_job(&self.tokens, job)
    }
}

fn remove_job(tokens: &mut Vec<Token>, job: u64)
    ensures items { tokens.new.items ≡ filter (λ t. not (t.job == job)) tokens.old.items }
    ensures capacity { vec_capacity tokens.new ≡ vec_capacity tokens.old }
    ensures few { length tokens.new.items ≤ length tokens.old.items }
{
    tokens.retain(|token| u64::from(token.job) != job);
}

// The last one of this job.
fn last_of_job(tokens: &[Token], job: u64) -> Option<Token>
    ensures { result ≡ find (λ t. t.job == job) (reverse tokens.now) }
{
    let mut found = None;
    for token in tokens {
        found = later(*token, job, found);
    }
    found
}

// The token, if it is of this job, or what was found before.
fn later(token: Token, job: u64, found: Option<Token>) -> Option<Token>
    ensures { result ≡ cond (token.job == job) (Some token) found }
{
    if u64::from(token.job) == job {
        Some(token)
    } else {
        found
    }
}
