ghost use Rattle.std.specs.Prelude.{◌≡◌, IfOk, Some, None};
ghost use Rattle.cpu_table.specs.Data.{data_of};
ghost use Rattle.rendezvous_core.specs.Worlds.{first_lying, lying_on, lay, chair_at_first, as_cargo};

use crate::lying_on_kind::LyingOnKind;
use cpu_program::Cargo;
use cpu_table::Setup;
use handler_ops::Server;
use smm_base::{NoMemory, Policy};
use std::alloc::Global;
use std::marker::Model;
use sync_words::WordId;

/// What lies on the words on which something changes hands: desks, and on `bsp` the chair.
#[derive(Drop)]
pub struct Lying {
    bsp: Option<Cargo>,
    present: LyingOnKind,
    run: LyingOnKind,
    busy: LyingOnKind,
}

impl Model for Lying {
    ghost use Rattle.rendezvous_core.specs.Worlds.{Lying};
    ghost use Rattle.rendezvous_core.specs.LyingInside.{lying_in};

    ghost Value = { Lying };

    ghost view = { lying_in };
}

impl Lying {
    /// What lies there before any event: the chair, where the BSP is elected.
    pub fn start(alloc: Global, setup: &Setup) -> Result<Lying, NoMemory>
        ensures { IfOk result (λ lying. lying ≡ first_lying (data_of setup.now)) }
    {
        let n = setup.processors;
        Ok(Lying {
            bsp: as_cargo(chair_at_first(alloc, setup)?),
            present: LyingOnKind::start(alloc, n)?,
            run: LyingOnKind::start(alloc, n)?,
            busy: LyingOnKind::start(alloc, n)?,
        })
    }

    /// Lays a thing on a word, in place of what lies there. On a word where nothing changes hands it is dropped.
    pub fn lay(&mut self, word: WordId, cargo: Cargo)
        ensures { self.new ≡ lay self.old word (Some cargo) }
    {
        match word {
            WordId::Bsp => self.bsp = Some(cargo),
            WordId::Present(cpu) => self.present.lay(cpu, cargo),
            WordId::Run(cpu) => self.run.lay(cpu, cargo),
            WordId::Busy(cpu) => self.busy.lay(cpu, cargo),
            _ => {}
        }
    }

    /// Takes what lies on a word.
    pub fn take(&mut self, word: WordId) -> Option<Cargo>
        ensures taken { result ≡ lying_on self.old word }
        ensures left { self.new ≡ lay self.old word None }
    {
        match word {
            WordId::Bsp => self.bsp.take(),
            WordId::Present(cpu) => self.present.take(cpu),
            WordId::Run(cpu) => self.run.take(cpu),
            WordId::Busy(cpu) => self.busy.take(cpu),
            _ => None,
        }
    }
}

// The chair that lies on `bsp` before any event.
fn chair_at_first(alloc: Global, setup: &Setup) -> Result<Option<Server>, NoMemory>
    ensures { IfOk result (λ chair. chair ≡ chair_at_first setup.now.policy (data_of setup.now)) }
{
    match setup.policy {
        Policy::Elected => Ok(Some(Server::new(alloc, setup)?)),
        Policy::Fixed(_) => Ok(None),
    }
}

fn as_cargo(chair: Option<Server>) -> Option<Cargo>
    ensures { result ≡ as_cargo chair }
{
    match chair {
        None => None,
        Some(server) => Some(Cargo::Chair(server)),
    }
}
