ghost use Rattle.std.specs.Prelude.{◌≡◌, ◌≤◌, ◌⊎◌, IfOk, IfErr, OnOk, IsTrue, Ok, Err, Some, None};
ghost use Rattle.toml.specs.View.{table_view};
ghost use Rattle.toml.specs.Errors.{IsMemory};
ghost use Rattle.cpu_table.specs.Data.{data_of};
ghost use Rattle.cpu_table.specs.Layout.{layout_fits};
ghost use Rattle.cpu_table.specs.Ranges.{events_at_most, smram_fits};
ghost use Rattle.platform_document.specs.Reading.{StopsAt};
ghost use Rattle.platform_file.specs.Walk.{most_events, limits_judged, tables_at, setup_at, document_of, setup_read};
ghost use Rattle.platform_file.specs.Head.{HeadFits};
ghost use Rattle.platform_file.specs.declared.error.PlatformError.TheVariants.{NoMemory, NotToml};

use crate::area::{area_at, judge_layout};
use crate::causes::causes_at;
use crate::error::{PlatformError, error_of};
use crate::handlers::handlers_at;
use crate::head::{Head, head_at};
use crate::procedures::procedures_at;
use crate::waves::waves_at;
use cpu_table::{Setup, Smram};
use platform_document::WalkFault;
use std::alloc::Global;
use toml::Table;

/// A schedule makes at most this many events.
const MOST_EVENTS: u64 = 4194304;

// The most events that a schedule makes on the platform.
fn events_at_most(head: &Head) -> u64
    requires { HeadFits head.now }
    ensures { result ≡ most_events head.now }
{
    let processors = u64::from(head.processors);
    let looks = u64::from(head.polls.t1) + u64::from(head.polls.t2);
    let visit = 40 + looks + 10 * processors + 5 * u64::from(head.ops);
    u64::from(head.visits) * visit * (processors + 1)
}

// The limit on events, and last the layout of the areas.
fn judge_limits(head: &Head, smram: Option<Smram>) -> Result<(), WalkFault>
    requires head { HeadFits head.now }
    requires smram { IsTrue (smram_fits smram) }
    ensures judged { result ≡ limits_judged head.now smram }
    ensures few { OnOk result (most_events head.now ≤ 4194304) }
    ensures room { OnOk result (IsTrue (layout_fits head.now.processors smram)) }
{
    let events = events_at_most(head);
    if events > MOST_EVENTS {
        return Err(WalkFault::TooLarge(events));
    }
    judge_layout(smram, head.processors)
}

// The tables after the top one, then the limit on events, and last the layout.
fn tables_at(alloc: Global, table: &Table, head: Head) -> Result<Setup, WalkFault>
    requires { HeadFits head }
    ensures setup { IfOk result (λ setup. tables_at (table_view table.now) head ≡ Ok (data_of setup)) }
    ensures refused { IfErr result (StopsAt (tables_at (table_view table.now) head)) }
{
    let smram = area_at(alloc, table)?;
    let waves = waves_at(alloc, table, head.processors, head.visits)?;
    let handlers = handlers_at(alloc, table)?;
    let procedures = procedures_at(alloc, table)?;
    let causes = causes_at(alloc, table, head.processors, head.visits)?;
    judge_limits(&head, smram)?;
    Ok(Setup {
        processors: head.processors,
        kind: head.kind,
        policy: head.policy,
        mode: head.mode,
        t1: head.polls.t1,
        t2: head.polls.t2,
        visits: head.visits,
        ops: head.ops,
        ids: head.ids,
        smram,
        waves,
        handlers,
        procedures,
        causes,
    })
}

// The setup that a document stands for: the top table is finished first.
fn setup_at(alloc: Global, table: &Table) -> Result<Setup, WalkFault>
    ensures setup { IfOk result (λ setup. setup_at (table_view table.now) ≡ Ok (data_of setup)) }
    ensures refused { IfErr result (StopsAt (setup_at (table_view table.now))) }
{
    let head = head_at(alloc, table)?;
    tables_at(alloc, table, head)
}

// Why a document is refused: there is no memory, or it is none.
fn refusal(error: &toml::de::Error) -> PlatformError
    ensures { (result ≡ NoMemory) ⊎ ((result ≡ NotToml) × (IsMemory error.now → ⊥)) }
{
    if error.is_memory() {
        PlatformError::NoMemory
    } else {
        PlatformError::NotToml
    }
}

// The document of a file.
fn document_of(alloc: Global, bytes: &[u8]) -> Result<Table, PlatformError>
    ensures document { IfOk result (λ table. document_of bytes.now ≡ Some (table_view table)) }
    ensures refused { IfErr result (λ error. (error ≡ NoMemory) ⊎ ((error ≡ NotToml) × (document_of bytes.now ≡ None))) }
{
    match toml::table_from_slice(alloc, bytes) {
        Ok(table) => Ok(table),
        Err(error) => Err(refusal(&error)),
    }
}

/// Reads a platform file of version 1, which is a TOML document.
///
/// The top table is judged first: its keys in their order, the kinds and lengths of its lists, and
/// its other keys; then come the table `smram`, the waves, the handlers with their operations, the
/// procedures and the causes, each list's entries by rising place, then the limit on events, and last the layout of SMRAM.
/// The first fault is the answer.
///
/// # Errors
///
/// `NotToml` where the bytes are no TOML document, each other error for the first fault of that
/// walk, with the path of its key; `NoMemory` for want of memory.
#[tactic(auto, unfolding(crate::specs::Walk::setup_read))]
pub fn read_platform(alloc: Global, bytes: &[u8]) -> Result<Setup, PlatformError>
    ensures setup { IfOk result (λ setup. setup_read bytes.now ≡ Ok (data_of setup)) }
    ensures refused { IfErr result (λ error. (error ≡ NoMemory) ⊎ (setup_read bytes.now ≡ Err error)) }
{
    let table = document_of(alloc, bytes)?;
    match setup_at(alloc, &table) {
        Ok(setup) => Ok(setup),
        Err(fault) => Err(error_of(alloc, fault)),
    }
}
