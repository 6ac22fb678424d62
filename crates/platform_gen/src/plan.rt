ghost use Rattle.std.specs.Prelude.{◌≡◌, ◌≤◌, IfOk, OnOk};
ghost use Rattle.platform_gen.specs.Draws.{state_after};
ghost use Rattle.platform_gen.specs.Plans.{PlanFits, arrival_by_bits, arrival_by, generated_plan, mode_by, plan_from, statuses_from, writes_from, writes_of};

use crate::draws::Draws;
use cpu_table::{Arrival, Items, Mode};
use smm_base::NoMemory;
use std::alloc::Global;

/// At most so many processors are written to by the handler.
const MOST_WRITES: u16 = 8;

/// A number that the handler writes to a processor's RAX.
#[derive(Clone, Copy, Debug)]
pub(crate) struct RaxWrite {
    pub(crate) cpu: u16,
    pub(crate) value: u32,
}

/// What is drawn for a platform; all else is the same in each.
#[derive(Drop)]
pub(crate) struct Plan {
    pub(crate) processors: u16,
    pub(crate) mode: Mode,
    /// How the first wave finds each processor, by number.
    pub(crate) first: Items<Arrival>,
    /// How the second wave finds each processor.
    pub(crate) second: Items<Arrival>,
    pub(crate) writes: Items<RaxWrite>,
}

fn mode_by(draw: u32) -> Mode
    ensures { result ≡ mode_by draw }
{
    if draw % 2 == 0 {
        Mode::Traditional
    } else {
        Mode::Relaxed
    }
}

fn arrival_by_bits(bits: u32) -> Arrival
    ensures { result ≡ arrival_by_bits bits }
{
    match bits {
        0 => Arrival::Delayed,
        1 => Arrival::Blocked,
        2 => Arrival::Absent,
        _ => Arrival::Prompt,
    }
}

// How a wave finds a processor. Processor 0 is always prompt, whatever is drawn for it.
fn arrival_by(cpu: u16, draw: u32) -> Arrival
    ensures { result ≡ arrival_by cpu draw }
{
    if cpu == 0 {
        Arrival::Prompt
    } else {
        arrival_by_bits(draw % 8)
    }
}

// How a wave finds each processor: one draw each.
#[tactic(auto, using(crate::proofs::PlanLemmas::state_step, crate::proofs::PlanLemmas::status_step))]
fn draw_statuses(alloc: Global, draws: &mut Draws, n: u16) -> Result<Items<Arrival>, NoMemory>
    ensures statuses { IfOk result (λ statuses. statuses ≡ statuses_from draws.old.state n) }
    ensures draws { OnOk result (draws.new.state ≡ state_after draws.old.state n) }
{
    let mut statuses = Vec::new(alloc);
    for cpu in 0..n {
        let draw = draws.take();
        statuses.push(arrival_by(cpu, draw))?;
    }
    Ok(Items::new(statuses))
}

// What the handler writes to the first processors: one draw each.
#[tactic(auto, using(crate::proofs::PlanLemmas::state_step, crate::proofs::PlanLemmas::write_step))]
fn draw_writes(alloc: Global, draws: &mut Draws, count: u16) -> Result<Items<RaxWrite>, NoMemory>
    ensures { IfOk result (λ writes. writes ≡ writes_from draws.old.state count) }
{
    let mut writes = Vec::new(alloc);
    for cpu in 0..count {
        let value = draws.take();
        writes.push(RaxWrite { cpu, value })?;
    }
    Ok(Items::new(writes))
}

// How many processors are written to.
fn writes_of(n: u16) -> u16
    ensures { result ≡ writes_of n }
{
    if n < MOST_WRITES { n } else { MOST_WRITES }
}

// The plan of n processors by the draws that follow.
fn plan_from(alloc: Global, mut draws: Draws, n: u16) -> Result<Plan, NoMemory>
    ensures { IfOk result (λ plan. plan ≡ plan_from n draws.state) }
{
    let mode = mode_by(draws.take());
    let first = draw_statuses(alloc, &mut draws, n)?;
    let second = draw_statuses(alloc, &mut draws, n)?;
    let writes = draw_writes(alloc, &mut draws, writes_of(n))?;
    Ok(Plan {
        processors: n,
        mode,
        first,
        second,
        writes,
    })
}

/// The plan of n processors that a seed makes.
pub(crate) fn generated_plan(alloc: Global, seed: u32, n: u16) -> Result<Plan, NoMemory>
    requires some { 1 ≤ n }
    requires few { n ≤ 64 }
    ensures plan { IfOk result (λ plan. plan ≡ generated_plan seed n) }
    ensures fits { IfOk result PlanFits }
{
    let plan = plan_from(alloc, Draws::from_seed(seed), n)?;
    Ok(plan)
}
