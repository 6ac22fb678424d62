ghost use Rattle.std.specs.Prelude.{◌≡◌, ◌≤◌, IfOk};
ghost use Rattle.cpu_table.specs.Data.{data_of};
ghost use Rattle.rendezvous_core.specs.Worlds.{first_words, bsp_at_first, read, write};

use crate::words_of_kind::WordsOfKind;
use cpu_table::Setup;
use smm_base::Policy;
use std::alloc::{AllocError, Global};
use std::marker::Model;
use sync_words::{LOCKED, WordId};

/// The shared words of a platform. Each holds a number from 0 to [`LOCKED`].
#[derive(Drop)]
pub struct Words {
    counter: u32,
    bsp: u32,
    inside: u32,
    insync: u32,
    source: u32,
    except: u32,
    pend: WordsOfKind,
    present: WordsOfKind,
    run: WordsOfKind,
    busy: WordsOfKind,
}

impl Model for Words {
    ghost use Rattle.rendezvous_core.specs.Worlds.{Words};
    ghost use Rattle.rendezvous_core.specs.WordsInside.{words_of, FitsEach};

    ghost Value = { Words };

    ghost view = { words_of };

    ghost invariant = { FitsEach };
}

impl Words {
    /// The words of a platform before any event.
    pub fn start(alloc: Global, setup: &Setup) -> Result<Words, AllocError>
        ensures { IfOk result (λ words. words ≡ first_words (data_of setup.now)) }
    {
        let n = usize::from(setup.processors);
        Ok(Words {
            counter: 0,
            bsp: bsp_at_first(setup),
            inside: 0,
            insync: 0,
            source: 0,
            except: 0,
            pend: WordsOfKind::start(alloc, n)?,
            present: WordsOfKind::start(alloc, n)?,
            run: WordsOfKind::start(alloc, n)?,
            busy: WordsOfKind::start(alloc, n)?,
        })
    }

    /// The number in a word; of a processor that isn't there it is 0.
    pub fn get(&self, word: WordId) -> u32
        ensures value { result ≡ read self.now word }
        ensures fits { result ≤ LOCKED }
    {
        match word {
            WordId::Counter => self.counter,
            WordId::Bsp => self.bsp,
            WordId::Inside => self.inside,
            WordId::Insync => self.insync,
            WordId::Source => self.source,
            WordId::Except => self.except,
            WordId::Pend(cpu) => self.pend.get(cpu),
            WordId::Present(cpu) => self.present.get(cpu),
            WordId::Run(cpu) => self.run.get(cpu),
            WordId::Busy(cpu) => self.busy.get(cpu),
        }
    }

    /// Writes a number into a word, if there is such a word.
    pub fn set(&mut self, word: WordId, value: u32)
        requires fits { value ≤ LOCKED }
        ensures { self.new ≡ write self.old word value }
    {
        match word {
            WordId::Counter => self.counter = value,
            WordId::Bsp => self.bsp = value,
            WordId::Inside => self.inside = value,
            WordId::Insync => self.insync = value,
            WordId::Source => self.source = value,
            WordId::Except => self.except = value,
            WordId::Pend(cpu) => self.pend.set(cpu, value),
            WordId::Present(cpu) => self.present.set(cpu, value),
            WordId::Run(cpu) => self.run.set(cpu, value),
            WordId::Busy(cpu) => self.busy.set(cpu, value),
        }
    }
}

// Who the BSP is before any event.
fn bsp_at_first(setup: &Setup) -> u32
    ensures value { result ≡ bsp_at_first setup.now.policy }
    ensures fits { result ≤ LOCKED }
{
    match setup.policy {
        Policy::Elected => LOCKED,
        Policy::Fixed(bsp) => u32::from(bsp),
    }
}
