ghost use Rattle.std.specs.Prelude.{◌≡◌, All, IfOk, IfErr, OnOk, None, length};
ghost use Rattle.cpu_table.specs.Data.{data_of};
ghost use Rattle.rendezvous_core.specs.Starts.{AreImagesOf, first_registers, start_refusal, IsRefusedBy};
ghost use Rattle.trace_check.specs.Judged.{first_judged};
ghost use Rattle.trace_check.specs.Stands.{answer};
ghost use Rattle.trace_check.specs.Afterwards.{accepted};

use crate::broken::Broken;
use crate::kept::Kept;
use crate::numbers::rule_of;
use crate::starting::first_kept;
use cpu_regs::Regs;
use cpu_table::Setup;
use rendezvous_core::{WorldError, not_relocated, start_fault, start_registers};
use save_state_map::Image;
use smm_base::NoMemory;
use std::alloc::Global;
use std::marker::Model;
use sync_words::Label;

/// A checker of what actors say: the rendezvous machine, run label by label. It stores no label.
#[derive(Drop)]
pub struct Machine {
    kept: Kept,
}

impl Model for Machine {
    ghost use Rattle.trace_check.specs.Judged.{Judged};

    ghost Value = { Judged };

    ghost use Rattle.trace_check.specs.Kept.{judged_in, IsKept};

    ghost view = { λ m. judged_in m.kept };

    ghost invariant = { λ m. IsKept m.kept };
}

impl Machine {
    /// The machine of a platform before any label: a processor has the registers and the image of its number. It takes all memory
    /// that it will use.
    fn start(
        alloc: Global,
        setup: &Setup,
        images: &[Image],
        registers: &[Regs],
    ) -> Result<Machine, NoMemory>
        requires count { length images.now ≡ setup.now.processors }
        requires kinds { All (λ image. image.kind ≡ setup.now.kind) images.now }
        requires registers_count { length registers.now ≡ setup.now.processors }
        requires registers_kinds { All (λ one. one.kind ≡ setup.now.kind) registers.now }
        ensures { IfOk result (λ machine. machine ≡ first_judged (data_of setup.now) registers.now images.now) }
    {
        let kept = first_kept(alloc, setup, images, registers)?;
        Ok(Machine { kept })
    }

    #[tactic(auto, using(crate::proofs::Relocated::count, crate::proofs::Relocated::kinds))]
    fn relocated(alloc: Global, setup: &Setup, images: &[Image]) -> Result<Machine, NoMemory>
        requires images { AreImagesOf (data_of setup.now) images.now }
        requires relocatable { start_refusal (data_of setup.now) images.now ≡ None }
        ensures { IfOk result (λ machine. machine ≡ first_judged (data_of setup.now) (first_registers (data_of setup.now) images.now) images.now) }
    {
        let registers = start_registers(alloc, setup, images)?;
        Machine::start(alloc, setup, images, registers.as_slice())
    }

    /// The machine of a platform before any label, from an image for each processor, of the platform's kind. Where the setup has
    /// an area for save states, the processors are relocated to it: their registers, while their images stay. A relocation that
    /// is refused is found first; then all memory that the machine will use is taken.
    pub fn new(alloc: Global, setup: &Setup, images: &Vec<Image>) -> Result<Machine, WorldError>
        requires images { AreImagesOf (data_of setup.now) images.now.items }
        ensures start { IfOk result (λ machine. machine ≡ first_judged (data_of setup.now) (first_registers (data_of setup.now) images.now.items) images.now.items) }
        ensures relocatable { OnOk result (start_refusal (data_of setup.now) images.now.items ≡ None) }
        ensures refused { IfErr result (IsRefusedBy (start_refusal (data_of setup.now) images.now.items)) }
    {
        if let Some(error) = start_fault(setup, images) {
            return Err(not_relocated(error));
        }
        match Machine::relocated(alloc, setup, images.as_slice()) {
            Ok(machine) => Ok(machine),
            Err(NoMemory) => Err(WorldError::NoMemory),
        }
    }

    /// The actor, a processor by its number or the chipset, which has the number of processors, says the label. `Broken` with
    /// the number of the label's rule exactly where the rule doesn't hold; then nothing changes.
    #[tactic(auto, using(crate::proofs::Keeping::stays_kept))]
    pub fn accept(&mut self, actor: u16, label: &Label) -> Result<(), Broken>
        ensures answer { result ≡ answer self.old actor label.now }
        ensures after { self.new ≡ accepted self.old actor label.now }
    {
        if self.kept.holds(actor, *label) {
            self.kept.apply(actor, *label);
            Ok(())
        } else {
            Err(Broken {
                rule: rule_of(*label),
            })
        }
    }
}
