ghost use Rattle.std.specs.Prelude.{◌≡◌, ◌<◌, ◌≤◌, All, IsTrue, eqb, length};
ghost use Rattle.std.specs.List.{IsDistinct};
ghost use Rattle.std.proofs.Props.{props};
ghost use Rattle.cpu_table.specs.Layout.{layout_fits};
ghost use Rattle.cpu_table.specs.Ranges.{events_at_most, policy_fits, waves_fit, handlers_fit, procedures_fit, causes_fit, smram_fits};

use crate::copying::{copied_causes, copied_handlers, copied_procedures, copied_waves};
use crate::handlers::{HandlerDef, ProcedureDef};
use crate::items::Items;
use crate::table::CpuTable;
use crate::waves::Wave;
use smm_base::{Cause, MapKind, NoMemory, Policy};

/// Whom a session waits for before its handlers run. The words are those of the practice of
/// system-management firmware; what they mean here is the project's own.
#[derive(Clone, Copy, Debug, PartialEq, Eq)]
pub enum Mode {
    /// Handlers run after the processors have come, or after two rounds of waiting.
    Traditional,
    /// Handlers run at once, and processors come while they run.
    Relaxed,
}

/// Where the processors' save-state areas are to lie, in bytes.
#[derive(Clone, Copy, Debug, PartialEq, Eq)]
pub struct Smram {
    pub base: u64,
    /// 1 to 8,388,608; base + size is at most 2^32.
    pub size: u64,
    /// The distance of two processors' areas, below 2^63.
    pub tile: u64,
    /// The size of the entry code, below 2^63.
    pub code: u64,
}

/// What a processor did when the interrupt of one of its visits came.
#[derive(Clone, Copy, Debug, PartialEq, Eq)]
pub struct CauseAt {
    pub cpu: u16,
    /// Which of the processor's visits, counted from 1.
    pub visit: u32,
    pub cause: Cause,
}

/// A platform. Its type keeps each range, that SMRAM has room for the processors' areas, and that the
/// product of the limits, `visits * (40 + t1 + t2 + 10 * processors + 5 * ops) * (processors + 1)`, is
/// at most 4,194,304.
#[derive(Drop)]
pub struct Setup {
    /// 1 to 64.
    pub processors: u16,
    pub kind: MapKind,
    pub policy: Policy,
    pub mode: Mode,
    /// The looks of the first round of waiting, 1 to 4,096.
    pub t1: u32,
    /// The looks of the second round of waiting, 1 to 4,096.
    pub t2: u32,
    /// The most visits that a processor makes, 1 to 256.
    pub visits: u32,
    /// The units of serving in a session, 1 to 4,096.
    pub ops: u32,
    /// One for each processor, each below 2^63.
    pub ids: CpuTable,
    /// Where there is one, it has room for the areas of all processors.
    pub smram: Option<Smram>,
    pub waves: Items<Wave>,
    pub handlers: Items<HandlerDef>,
    pub procedures: Items<ProcedureDef>,
    pub causes: Items<CauseAt>,
    pub ghost processors_in_range: { (1 ≤ processors) × (processors ≤ 64) },
    pub ghost policy_in_range: { IsTrue (policy_fits processors policy) },
    pub ghost polls_in_range: { (1 ≤ t1) × (t1 ≤ 4096) × (1 ≤ t2) × (t2 ≤ 4096) },
    pub ghost visits_in_range: { (1 ≤ visits) × (visits ≤ 256) },
    pub ghost ops_in_range: { (1 ≤ ops) × (ops ≤ 4096) },
    pub ghost ids_for_each: { length ids ≡ processors },
    pub ghost ids_distinct: { IsDistinct eqb ids } by { Prim.hlevel props },
    pub ghost ids_in_range: { All (λ id. id < 9223372036854775808) ids },
    pub ghost smram_in_range: { IsTrue (smram_fits smram) },
    pub ghost smram_has_room: { IsTrue (layout_fits processors smram) },
    pub ghost waves_in_range: { IsTrue (waves_fit processors visits waves) },
    pub ghost handlers_in_range: { IsTrue (handlers_fit handlers) },
    pub ghost procedures_in_range: { IsTrue (procedures_fit procedures) },
    pub ghost causes_in_range: { IsTrue (causes_fit processors visits causes) },
    pub ghost events_in_range: { events_at_most processors t1 t2 visits ops ≤ 4194304 },
}

impl Setup {
    ghost use Rattle.std.specs.Prelude.{IfOk};

    /// An equal setup.
    pub fn copy(&self) -> Result<Setup, NoMemory>
        ensures { IfOk result (λ copy. copy ≡ self.now) }
    {
        Ok(Setup {
            processors: self.processors,
            kind: self.kind,
            policy: self.policy,
            mode: self.mode,
            t1: self.t1,
            t2: self.t2,
            visits: self.visits,
            ops: self.ops,
            ids: self.ids.clone()?,
            smram: self.smram,
            waves: copied_waves(&self.waves)?,
            handlers: copied_handlers(&self.handlers)?,
            procedures: copied_procedures(&self.procedures)?,
            causes: copied_causes(&self.causes)?,
        })
    }
}
