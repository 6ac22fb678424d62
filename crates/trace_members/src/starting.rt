ghost use Rattle.std.specs.Prelude.{◌≡◌, All, IfOk, length};
ghost use Rattle.rendezvous_machine.specs.Machines.{first_member};
ghost use Rattle.trace_members.specs.Members.{firsts};

use crate::member::Member;
use cpu_regs::Regs;
use cpu_table::Setup;
use save_state_map::Image;
use smm_base::NoMemory;
use std::alloc::Global;

fn first(setup: &Setup, registers: Regs, image: Image) -> Member
    requires image_kind { image.kind ≡ setup.now.kind }
    requires registers_kind { registers.kind ≡ setup.now.kind }
    ensures { result ≡ first_member registers image }
{
    let _ = setup;
    Member::first(registers, image)
}

/// The processors of a platform before any visit: each has the registers and the image of its number.
pub fn first_members(
    alloc: Global,
    setup: &Setup,
    images: &[Image],
    registers: &[Regs],
) -> Result<Vec<Member>, NoMemory>
    requires count { length images.now ≡ setup.now.processors }
    requires kinds { All (λ image. image.kind ≡ setup.now.kind) images.now }
    requires registers_count { length registers.now ≡ setup.now.processors }
    requires registers_kinds { All (λ one. one.kind ≡ setup.now.kind) registers.now }
    ensures { IfOk result (λ members. members.items ≡ firsts registers.now images.now) }
{
    let n = setup.processors;
    let mut members = Vec::with_capacity(alloc, usize::from(n))?;
    for i in 0..n {
        let at = usize::from(i);
        members.push(first(setup, registers[at], images[at]))?;
    }
    Ok(members)
}
