ghost use Rattle.std.specs.Prelude.{◌≡◌, ◌+◌, ◌≤◌, ◌<◌, ◌^◌, None, IfOk, OnOk, length, map};
ghost use Rattle.cpu_table.specs.Data.{data_of};
ghost use Rattle.cpu_table.specs.Layout.{layout_refusal};
ghost use Rattle.cpu_regs.specs.Registers.{loaded};
ghost use Rattle.smbase_reloc.specs.Relocation.{relocation_refusal, relocated};
ghost use Rattle.rendezvous_core.specs.Starts.{AreImagesOf, first_registers, start_refusal};
ghost use Rattle.rendezvous_core.specs.StartsInside.{refusal_one, numbered};

use cpu_regs::Regs;
use cpu_table::{Setup, Smram};
use save_state_map::Image;
use smbase_reloc::{DefaultArea, RelocError, layout, relocate, relocation_fault};
use smm_base::NoMemory;
use std::alloc::Global;

// The refusal of one processor by itself, with its number.
fn numbered(i: u16, error: RelocError) -> RelocError
    ensures { result ≡ numbered i error }
{
    match error {
        RelocError::NoRelocation(_) => RelocError::NoRelocation(i),
        RelocError::NotDefault(_) => RelocError::NotDefault(i),
    }
}

// Why processor i, with this image, may not be relocated.
fn image_fault(i: u16, image: &Image) -> Option<RelocError>
    ensures { result ≡ refusal_one i (loaded image.now) }
{
    match relocation_fault(&[Regs::of(image)]) {
        None => None,
        Some(error) => Some(numbered(i, error)),
    }
}

// Why the processors with these images are not relocated.
fn first_fault(images: &[Image]) -> Option<RelocError>
    requires { length images.now ≤ 64 }
    ensures { result ≡ relocation_refusal (map loaded images.now) }
{
    for (i, image) in images.iter().enumerate() {
        if let Some(error) = image_fault(i as u16, image) {
            return Some(error);
        }
    }
    None
}

/// Why the processors of a setup can't begin with these images, one for each processor, of the setup's kind: the refusal
/// of their relocation, where the setup has an area for save states. It takes no memory.
pub fn start_fault(setup: &Setup, images: &Vec<Image>) -> Option<RelocError>
    requires { AreImagesOf (data_of setup.now) images.now.items }
    ensures { result ≡ start_refusal (data_of setup.now) images.now.items }
{
    match setup.smram {
        None => None,
        Some(_) => first_fault(images.as_slice()),
    }
}

// Relocates processors that may all be, through a default area of zeros.
fn relocate_all(alloc: Global, area: &Smram, n: u16, registers: &mut [Regs]) -> Result<(), NoMemory>
    requires some { 1 ≤ n }
    requires few { n ≤ 64 }
    requires below { area.now.base + area.now.size ≤ 2 ^ 32 }
    requires room { layout_refusal area.now n ≡ None }
    requires each { length registers.old ≡ n }
    requires relocatable { relocation_refusal registers.old ≡ None }
    ensures { OnOk result (registers.new ≡ relocated area.now registers.old) }
{
    let places = match layout(area, n) {
        Ok(places) => places,
        Err(_) => unreachable!(),
    };
    let mut default = DefaultArea::new(alloc, &[0; 1024])?;
    match relocate(&places, registers, &mut default) {
        Ok(()) => Ok(()),
        Err(_) => unreachable!(),
    }
}

// The registers that the images hold.
fn loaded_all(alloc: Global, images: &[Image]) -> Result<Vec<Regs>, NoMemory>
    ensures { IfOk result (λ registers. registers.items ≡ map loaded images.now) }
{
    Ok(images.iter().map(|image| Regs::of(image)).collect(alloc)?)
}

// The registers of processors that may all be relocated, after that.
fn relocated_all(
    alloc: Global,
    area: &Smram,
    n: u16,
    mut registers: Vec<Regs>,
) -> Result<Vec<Regs>, NoMemory>
    requires some { 1 ≤ n }
    requires few { n ≤ 64 }
    requires below { area.now.base + area.now.size ≤ 2 ^ 32 }
    requires room { layout_refusal area.now n ≡ None }
    requires each { length registers.items ≡ n }
    requires relocatable { relocation_refusal registers.items ≡ None }
    ensures { IfOk result (λ after. after.items ≡ relocated area.now registers.items) }
{
    relocate_all(alloc, area, n, &mut registers)?;
    Ok(registers)
}

/// The registers that the processors of a setup begin with, by their images.
#[tactic(auto, using(crate::proofs::StartLemmas::placed_first, crate::proofs::StartLemmas::relocated_first))]
pub fn start_registers(
    alloc: Global,
    setup: &Setup,
    images: &[Image],
) -> Result<Vec<Regs>, NoMemory>
    requires images { AreImagesOf (data_of setup.now) images.now }
    requires relocatable { start_refusal (data_of setup.now) images.now ≡ None }
    ensures { IfOk result (λ registers. registers.items ≡ first_registers (data_of setup.now) images.now) }
{
    let registers = loaded_all(alloc, images)?;
    match &setup.smram {
        None => Ok(registers),
        Some(area) => {
            let relocated = relocated_all(alloc, area, setup.processors, registers)?;
            Ok(relocated)
        }
    }
}
