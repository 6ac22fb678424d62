ghost use Rattle.std.specs.Prelude.{◌≡◌, IfOk, Some, None, replicate, slice_index_or, slice_set};

use cpu_program::Cargo;
use smm_base::NoMemory;
use std::alloc::Global;
use std::marker::Model;

/// What lies on the words of one kind, one for each processor, which contracts see as the list.
#[derive(Drop)]
pub struct LyingOnKind {
    things: Vec<Option<Cargo>>,
}

impl Model for LyingOnKind {
    ghost use Rattle.std.specs.Prelude.{List, Option};
    ghost use Rattle.cpu_program.specs.declared.cargo.Cargo.{Cargo};

    ghost Value = { List (Option Cargo) };

    ghost view = { λ l. l.things.items };
}

impl LyingOnKind {
    /// Nothing lies on so many words.
    pub fn start(alloc: Global, n: u16) -> Result<LyingOnKind, NoMemory>
        ensures { IfOk result (λ lying. lying ≡ replicate n None) }
    {
        let mut things = Vec::with_capacity(alloc, usize::from(n))?;
        for _ in 0..n {
            things.push(None)?;
        }
        Ok(LyingOnKind { things })
    }

    pub fn lay(&mut self, cpu: u16, cargo: Cargo)
        ensures { self.new ≡ slice_set self.old cpu (Some cargo) }
    {
        if let Some(place) = self.things.get_mut(usize::from(cpu)) {
            *place = Some(cargo);
        }
    }

    pub fn take(&mut self, cpu: u16) -> Option<Cargo>
        ensures taken { result ≡ slice_index_or self.old cpu None }
        ensures left { self.new ≡ slice_set self.old cpu None }
    {
        match self.things.get_mut(usize::from(cpu)) {
            Some(place) => place.take(),
            None => None,
        }
    }
}
