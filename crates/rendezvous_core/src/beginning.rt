ghost use Rattle.std.specs.Prelude.{◌≡◌, ◌<◌, None, IfOk};
ghost use Rattle.cpu_table.specs.Data.{data_of};
ghost use Rattle.rendezvous_core.specs.Starts.{AreImagesOf, first_registers, start_refusal};
ghost use Rattle.rendezvous_core.specs.StartsInside.{AreRegistersOf};
ghost use Rattle.rendezvous_core.specs.Worlds.{own_chair, first_actor, first_actors};

use crate::starting::start_registers;
use cpu_program::Program;
use cpu_regs::Regs;
use cpu_table::Setup;
use handler_ops::Server;
use save_state_map::Image;
use smm_base::{NoMemory, Policy};
use std::alloc::Global;

// The chair that a processor has from the start: the fixed BSP has it.
fn own_chair(alloc: Global, setup: &Setup, me: u16) -> Result<Option<Server>, NoMemory>
    ensures { IfOk result (λ chair. chair ≡ own_chair setup.now.policy (data_of setup.now) me) }
{
    match setup.policy {
        Policy::Elected => Ok(None),
        Policy::Fixed(bsp) => {
            if me == bsp {
                Ok(Some(Server::new(alloc, setup)?))
            } else {
                Ok(None)
            }
        }
    }
}

fn first_program(
    alloc: Global,
    setup: &Setup,
    me: u16,
    registers: Regs,
    image: Image,
) -> Result<Program, NoMemory>
    requires me_in { me < setup.now.processors }
    requires image_kind { image.kind ≡ setup.now.kind }
    requires registers_kind { registers.kind ≡ setup.now.kind }
    ensures { IfOk result (λ program. program ≡ first_actor (data_of setup.now) me registers image) }
{
    let chair = own_chair(alloc, setup, me)?;
    Program::new(alloc, setup, me, Some(image), Some(registers), chair)
}

// The processors by number, and then the chipset.
fn programs_with(
    alloc: Global,
    setup: &Setup,
    images: &[Image],
    registers: &[Regs],
) -> Result<Vec<Program>, NoMemory>
    requires images { AreImagesOf (data_of setup.now) images.now }
    requires registers { AreRegistersOf (data_of setup.now) registers.now }
    ensures { IfOk result (λ programs. programs.items ≡ first_actors (data_of setup.now) 0 registers.now images.now) }
{
    let n = setup.processors;
    let mut programs = Vec::with_capacity(alloc, usize::from(n) + 1)?;
    for i in 0..n {
        let at = usize::from(i);
        programs.push(first_program(alloc, setup, i, registers[at], images[at])?)?;
    }
    programs.push(Program::new(alloc, setup, n, None, None, None)?)?;
    Ok(programs)
}

/// The programs of a platform before any event, by the processors' images, where the relocation isn't refused.
pub fn first_programs(
    alloc: Global,
    setup: &Setup,
    images: &[Image],
) -> Result<Vec<Program>, NoMemory>
    requires images { AreImagesOf (data_of setup.now) images.now }
    requires relocatable { start_refusal (data_of setup.now) images.now ≡ None }
    ensures { IfOk result (λ programs. programs.items ≡ first_actors (data_of setup.now) 0 (first_registers (data_of setup.now) images.now) images.now) }
{
    let registers = start_registers(alloc, setup, images)?;
    programs_with(alloc, setup, images, registers.as_slice())
}
