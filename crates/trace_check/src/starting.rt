ghost use Rattle.std.specs.Prelude.{◌≡◌, All, IfOk, length};
ghost use Rattle.cpu_table.specs.Data.{data_of};
ghost use Rattle.trace_check.specs.Judged.{first_judged};
ghost use Rattle.trace_check.specs.Kept.{judged_in};

use crate::kept::Kept;
use cpu_regs::Regs;
use cpu_table::Setup;
use save_state_map::Image;
use serving_judge::Judge;
use smm_base::NoMemory;
use std::alloc::Global;
use trace_members::first_members;

/// The machine before any label, with these images and these registers of its processors.
pub fn first_kept(
    alloc: Global,
    setup: &Setup,
    images: &[Image],
    registers: &[Regs],
) -> Result<Kept, NoMemory>
    requires count { length images.now ≡ setup.now.processors }
    requires kinds { All (λ image. image.kind ≡ setup.now.kind) images.now }
    requires registers_count { length registers.now ≡ setup.now.processors }
    requires registers_kinds { All (λ one. one.kind ≡ setup.now.kind) registers.now }
    ensures { IfOk result (λ kept. judged_in kept ≡ first_judged (data_of setup.now) registers.now images.now) }
{
    Ok(Kept {
        members: first_members(alloc, setup, images, registers)?,
        waves: 0,
        excepted: 0,
        last_excepted: 0,
        source: 0,
        session: None,
        judge: Judge::new(alloc, setup)?,
    })
}
