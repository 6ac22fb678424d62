ghost use Rattle.std.specs.Prelude.{◌≡◌, ◌∷◌, ◌≤◌, [], All, IfOk, ◌<◌, eqb, map};
ghost use Rattle.std.specs.List.{IsDistinct, range_with_len};
ghost use Rattle.cpu_table.specs.Data.{data_of};
ghost use Rattle.platform_gen.specs.Plans.{PlanFits, handler_of, op_of, setup_of, wave_of};

use crate::plan::{Plan, RaxWrite};
use cpu_table::{Arrival, CpuTable, HandlerDef, Items, OpDef, Operand, Policy, Setup, Text, Wave};
use smm_base::{HandlerType, MapKind, NoMemory, Register, Status};
use std::alloc::Global;

/// The looks of each round of waiting.
const POLLS: u32 = 16;

/// The most visits of a processor.
const VISITS: u32 = 8;

/// The units of serving in a session.
const OPS: u32 = 64;

// The numbers of the processors.
#[tactic(auto, using(crate::proofs::PlanLemmas::number_step))]
fn numbers_below(alloc: Global, n: u16) -> Result<Vec<u64>, NoMemory>
    ensures numbers { IfOk result (λ numbers. numbers.items ≡ range_with_len 0 n) }
    ensures small { IfOk result (λ numbers. All (λ id. id < 9223372036854775808) numbers.items) }
{
    let mut numbers = Vec::new(alloc);
    for number in 0..n {
        numbers.push(u64::from(number))?;
    }
    Ok(numbers)
}

// Each processor's id is its number. The numbers are few and differ, so that only want of memory is a
// reason to refuse them.
fn ids_of(alloc: Global, n: u16) -> Result<CpuTable, NoMemory>
    ensures ids { IfOk result (λ ids. ids ≡ range_with_len 0 n) }
    ensures distinct { IfOk result (λ ids. IsDistinct eqb ids) }
    ensures small { IfOk result (λ ids. All (λ id. id < 9223372036854775808) ids) }
{
    let numbers = numbers_below(alloc, n)?;
    match CpuTable::new(alloc, numbers.as_slice()) {
        Ok(ids) => Ok(ids),
        Err(_) => Err(NoMemory),
    }
}

// A wave in whose session the root list is walked over.
fn wave_of(alloc: Global, status: Items<Arrival>) -> Result<Wave, NoMemory>
    ensures { IfOk result (λ wave. wave ≡ wave_of status) }
{
    let manage = vec![in alloc; HandlerType::Root]?;
    Ok(Wave {
        status,
        manage: Items::new(manage),
    })
}

// The two waves.
fn waves_of(
    alloc: Global,
    first: Items<Arrival>,
    second: Items<Arrival>,
) -> Result<Items<Wave>, NoMemory>
    ensures { IfOk result (λ waves. waves ≡ wave_of first ∷ wave_of second ∷ []) }
{
    let first = wave_of(alloc, first)?;
    let second = wave_of(alloc, second)?;
    let waves = vec![in alloc; first, second]?;
    Ok(Items::new(waves))
}

fn op_of(write: RaxWrite) -> OpDef
    ensures { result ≡ op_of write }
{
    OpDef::Write {
        cpu: write.cpu,
        reg: Register::Rax.number(),
        width: 8,
        value: Operand::Number(u64::from(write.value)),
    }
}

// The handler's operations.
fn ops_of(alloc: Global, writes: &[RaxWrite]) -> Result<Items<OpDef>, NoMemory>
    ensures { IfOk result (λ ops. ops ≡ map op_of writes.now) }
{
    let mut ops = Vec::new(alloc);
    for write in writes {
        ops.push(op_of(*write))?;
    }
    Ok(Items::new(ops))
}

// The one handler.
fn handlers_of(alloc: Global, writes: &[RaxWrite]) -> Result<Items<HandlerDef>, NoMemory>
    ensures { IfOk result (λ handlers. handlers ≡ handler_of writes.now ∷ []) }
{
    let handler = HandlerDef {
        name: Text::from_str(alloc, "h0")?,
        kind: Some(HandlerType::Root),
        answer: Status::Success,
        ops: ops_of(alloc, writes)?,
    };
    let handlers = vec![in alloc; handler]?;
    Ok(Items::new(handlers))
}

/// The setup that a plan makes.
pub(crate) fn setup_of(alloc: Global, plan: Plan) -> Result<Setup, NoMemory>
    requires { PlanFits plan }
    ensures { IfOk result (λ setup. data_of setup ≡ setup_of plan) }
{
    let ids = ids_of(alloc, plan.processors)?;
    let handlers = handlers_of(alloc, plan.writes.as_slice())?;
    let waves = waves_of(alloc, plan.first, plan.second)?;
    Ok(Setup {
        processors: plan.processors,
        kind: MapKind::Intel64,
        policy: Policy::Elected,
        mode: plan.mode,
        t1: POLLS,
        t2: POLLS,
        visits: VISITS,
        ops: OPS,
        ids,
        smram: None,
        waves,
        handlers,
        procedures: Items::new(Vec::new(alloc)),
        causes: Items::new(Vec::new(alloc)),
    })
}
