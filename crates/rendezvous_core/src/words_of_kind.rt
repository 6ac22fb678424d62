ghost use Rattle.std.specs.Prelude.{◌≡◌, ◌≤◌, IfOk, replicate, slice_index_or, slice_set};

use std::alloc::{AllocError, Global};
use std::marker::Model;
use sync_words::LOCKED;

/// The words of one kind, one for each processor, which contracts see as the list.
#[derive(Drop)]
pub struct WordsOfKind {
    values: Vec<u32>,
}

impl Model for WordsOfKind {
    ghost use Rattle.std.specs.Prelude.{ℕ, List};
    ghost use Rattle.rendezvous_core.specs.Fitting.{FitWords};

    ghost Value = { List ℕ };

    ghost view = { λ w. w.values.items };

    ghost invariant = { λ w. FitWords w.values.items };
}

impl WordsOfKind {
    pub fn start(alloc: Global, n: usize) -> Result<WordsOfKind, AllocError>
        ensures { IfOk result (λ words. words ≡ replicate n 0) }
    {
        let mut values = Vec::new(alloc);
        values.resize(n, 0)?;
        Ok(WordsOfKind { values })
    }

    pub fn get(&self, cpu: u16) -> u32
        ensures value { result ≡ slice_index_or self.now cpu 0 }
        ensures fits { result ≤ LOCKED }
    {
        self.values.get(usize::from(cpu)).copied().unwrap_or(0)
    }

    pub fn set(&mut self, cpu: u16, value: u32)
        requires { value ≤ LOCKED }
        ensures { self.new ≡ slice_set self.old cpu value }
    {
        if let Some(word) = self.values.get_mut(usize::from(cpu)) {
            *word = value;
        }
    }
}
