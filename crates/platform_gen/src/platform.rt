ghost use Rattle.std.specs.Prelude.{◌≡◌, ◌≤◌, IfOk};
ghost use Rattle.cpu_table.specs.Data.{data_of};
ghost use Rattle.platform_gen.specs.Plans.{generated_setup};
ghost use Rattle.platform_gen.specs.Texts.{text_of_generated};

use crate::plan::generated_plan;
use crate::setup::setup_of;
use crate::text::text_of;
use cpu_table::Setup;
use smm_base::NoMemory;
use std::alloc::Global;

/// The platform of n processors that a seed makes: its mode, how each of its two waves finds each
/// processor, and the numbers that its one handler writes are drawn; all else is the same in each.
pub fn generate(alloc: Global, seed: u32, n: u16) -> Result<Setup, NoMemory>
    requires some { 1 ≤ n }
    requires few { n ≤ 64 }
    ensures { IfOk result (λ setup. data_of setup ≡ generated_setup seed n) }
{
    let plan = generated_plan(alloc, seed, n)?;
    setup_of(alloc, plan)
}

/// The platform file of the platform that `generate` makes.
pub fn generated_text(alloc: Global, seed: u32, n: u16) -> Result<Vec<u8>, NoMemory>
    requires some { 1 ≤ n }
    requires few { n ≤ 64 }
    ensures { IfOk result (λ text. text.items ≡ text_of_generated seed n) }
{
    let plan = generated_plan(alloc, seed, n)?;
    let text = text_of(alloc, &plan)?;
    Ok(text.into_bytes())
}
