ghost use Rattle.std.specs.Prelude.{◌≡◌, ◌<◌, ◌≤◌, ◌-◌, ◌++◌, ◌∷◌, [], false, IfOk, IfNone, All, length, map, position, Some};
ghost use Rattle.std.specs.List.{find};
ghost use Rattle.std.specs.Option.{option_map_or};
ghost use Rattle.slab.specs.Slab.{get, Updates, slab_len, ContainsKey};
ghost use Rattle.ap_procedure.specs.Given.{is_of, state_of, finished, without, IsRising};

use crate::token::{Token, TokenState};
use slab::Slab;
use smm_base::{NoMemory, Status};
use std::alloc::Global;
use std::marker::Model;

/// The most tokens that are out at once.
pub const MOST_TOKENS: usize = 64;

/// The tokens that are out, by rising job number.
#[derive(Drop)]
pub struct Tokens {
    slab: Slab<Token>,
    // The keys of the tokens by rising job number.
    order: Vec<usize>,
}

impl Model for Tokens {
    ghost use Rattle.std.specs.Prelude.{List, vec_capacity};
    ghost use Rattle.ap_procedure.specs.declared.token.Token.{Token};
    ghost use Rattle.slab_order.specs.Order.{values_at};
    ghost use Rattle.ap_procedure.specs.Kept.{IsKept};

    ghost Value = { List Token };

    ghost view = { λ t. values_at t.slab t.order.items };

    ghost invariant = { λ t. IsKept t.slab t.order.items (vec_capacity t.order) };
}

impl Tokens {
    /// No tokens, and room for 64.
    pub fn new(alloc: Global) -> Result<Tokens, NoMemory>
        ensures { IfOk result (λ tokens. tokens ≡ []) }
    {
        let slab = Slab::with_capacity(alloc, MOST_TOKENS)?;
        let order = Vec::with_capacity(alloc, MOST_TOKENS)?;
        Ok(Tokens { slab, order })
    }

    pub fn len(&self) -> usize
        ensures len { result ≡ length self.now }
        ensures few { result ≤ 64 }
    {
        self.order.len()
    }

    /// Adds the token of a job that was given after those of all other tokens.
    pub fn push(&mut self, token: Token)
        requires room { length self.old < 64 }
        requires numbered { 0 < token.job }
        requires later { IsRising 0 (token.job - 1) self.old }
        ensures { self.new ≡ self.old ++ token ∷ [] }
    {
        let key = self.slab.insert_reserved(token);
        self.order.push_reserved(key);
    }

    pub fn state_of(&self, job: u32) -> Option<TokenState>
        ensures { result ≡ state_of job self.now }
    {
        let key = key_of(&self.slab, self.order.as_slice(), job)?;
        self.slab.get(key).map(|token| token.state)
    }

    /// The token of this job, where one is out, tells this result and status from now on.
    pub fn finish(&mut self, job: u32, outcome: u64, status: Status)
        ensures { self.new ≡ map (finished job outcome status) self.old }
    {
        if let Some(key) = key_of(&self.slab, self.order.as_slice(), job) {
            set(
                &mut self.slab,
                key,
                Token {
                    job,
                    state: TokenState::Finished {
                        result: outcome,
                        status,
                    },
                },
            );
        }
    }

    /// Takes the token of this job out, where one is out.
    pub fn remove(&mut self, job: u32)
        ensures { self.new ≡ without job self.old }
    {
        if let Some(place) = place_of(&self.slab, self.order.as_slice(), job) {
            let key = self.order.remove(place);
            self.slab.remove(key);
        }
    }

    pub fn clear(&mut self)
        ensures { self.new ≡ [] }
    {
        self.slab.clear();
        self.order.clear();
    }
}

fn set(slab: &mut Slab<Token>, key: usize, token: Token)
    requires { ContainsKey slab.old key }
    ensures updates { Updates slab.old slab.new key (Some token) }
    ensures len { slab_len slab.new ≡ slab_len slab.old }
    ensures capacity { slab.new.capacity ≡ slab.old.capacity }
{
    slab[key] = token;
}

// The place in the order of the token of this job.
fn place_of(slab: &Slab<Token>, order: &[usize], job: u32) -> Option<usize>
    ensures place { result ≡ position (λ key. option_map_or (is_of job) (get slab.now key) false) order.now }
    ensures absent { IfNone result (All (λ key. option_map_or (is_of job) (get slab.now key) false ≡ false) order.now) }
{
    order
        .iter()
        .position(|key| slab.get(*key).is_some_and(|token| token.job == job))
}

// The key of the token of this job.
fn key_of(slab: &Slab<Token>, order: &[usize], job: u32) -> Option<usize>
    ensures { result ≡ find (λ key. option_map_or (is_of job) (get slab.now key) false) order.now }
{
    order
        .iter()
        .copied()
        .find(|key| slab.get(*key).is_some_and(|token| token.job == job))
}
