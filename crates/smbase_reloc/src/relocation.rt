ghost use Rattle.std.specs.Prelude.{◌≡◌, ◌^◌, ◌<◌, ◌≤◌, None, Some, IfSome, IfErr, OnOk, OnErr, length, position};
ghost use Rattle.save_state_map.specs.declared.field.Field.TheVariants.{Smbase};
ghost use Rattle.save_state_map.specs.Images.{with_field};
ghost use Rattle.cpu_regs.specs.Entering.{saved};
ghost use Rattle.cpu_table.specs.Causes.{no_cause};
ghost use Rattle.smbase_reloc.specs.Relocation.{can_relocate, is_at_default, is_fixed, refusal_of, relocation_refusal, with_smbase, relocated, IsCause};

use crate::area::DefaultArea;
use crate::error::RelocError;
use crate::places::Layout;
use cpu_regs::{Regs, enter, resume, switch_laws};
use save_state_map::{Field, Image, field_laws};
use smm_base::Cause;

/// Where SMBASE stands after a reset.
const DEFAULT_SMBASE: u64 = 0x30000;

// The bit of the revision that says that SMBASE can be relocated.
const RELOCATION_BIT: u32 = 17;

fn can_relocate(regs: &Regs) -> bool
    ensures { result ≡ can_relocate regs.now }
{
    (regs.get(Field::Revision).unwrap_or(0) >> RELOCATION_BIT) % 2 == 1
}

fn is_at_default(regs: &Regs) -> bool
    ensures { result ≡ is_at_default regs.now }
{
    regs.get(Field::Smbase).unwrap_or(0) == DEFAULT_SMBASE
}

fn is_fixed(regs: &Regs) -> bool
    ensures { result ≡ is_fixed regs.now }
{
    !(can_relocate(regs) && is_at_default(regs))
}

// The first processor that may not be relocated.
fn first_fixed(regs: &[Regs]) -> Option<usize>
    ensures first { result ≡ position is_fixed regs.now }
    ensures within { IfSome result (λ i. i < length regs.now) }
{
    regs.iter().position(|one| is_fixed(one))
}

fn refusal_of(i: u16, regs: &Regs) -> RelocError
    ensures { result ≡ refusal_of i regs.now }
{
    if can_relocate(regs) {
        RelocError::NotDefault(i)
    } else {
        RelocError::NoRelocation(i)
    }
}

/// Why processors with these registers, at most 64, are not relocated: the first that may not be,
/// `NoRelocation` where its SMBASE can't be relocated and else `NotDefault`. None where each may be.
/// It takes no memory.
pub fn relocation_fault(regs: &[Regs]) -> Option<RelocError>
    requires { length regs.now ≤ 64 }
    ensures refusal { result ≡ relocation_refusal regs.now }
    ensures cause { IfSome result (IsCause regs.now) }
{
    match first_fixed(regs) {
        None => None,
        Some(i) => Some(refusal_of(i as u16, &regs[i])),
    }
}

// What the relocating processor and its handler leave in a save state: the registers, with another SMBASE.
fn save_with_smbase(regs: &Regs, smbase: u64, state: &mut Image)
    requires kind { regs.now.kind ≡ state.old.kind }
    requires fits { smbase < 2 ^ 32 }
    ensures { state.new ≡ with_field (saved regs.now no_cause state.old) Smbase smbase }
{
    let cause = Cause {
        halt: false,
        io: None,
    };
    enter(regs, &cause, state);
    let _is_put = state.set_field(Field::Smbase, smbase);
}

// One processor is relocated: it saves its state in the default area, where SMBASE is replaced, and
// loads its registers from there. Then the area is as it was.
fn relocate_one(regs: &Regs, smbase: u64, area: &mut DefaultArea) -> Regs
    requires { smbase < 2 ^ 32 }
    ensures registers { result ≡ with_smbase smbase regs.now }
    ensures area { area.new ≡ area.old }
{
    field_laws();
    switch_laws();
    let mut state = area.image(regs.kind());
    let _kind = state.kind();
    save_with_smbase(regs, smbase, &mut state);
    let mut loaded = *regs;
    let _goes_on_by = resume(&area.carry(&state), &mut loaded);
    loaded
}

/// Gives each processor the SMBASE of its place in the layout. It saves its state in the default
/// area and loads it from there, as the hardware does. Refused, before any processor is relocated,
/// exactly as `relocation_fault` says. All other registers stay, and in the end the area's bytes
/// are as before.
pub fn relocate(
    layout: &Layout,
    regs: &mut [Regs],
    area: &mut DefaultArea,
) -> Result<(), RelocError>
    requires { length regs.old ≡ layout.now.processors }
    ensures ok { OnOk result (relocation_refusal regs.old ≡ None) }
    ensures refused { IfErr result (λ error. relocation_refusal regs.old ≡ Some error) }
    ensures cause { IfErr result (IsCause regs.old) }
    ensures relocated { OnOk result (regs.new ≡ relocated layout.now.area regs.old) }
    ensures stay { OnErr result (regs.new ≡ regs.old) }
    ensures area { area.new ≡ area.old }
{
    let _few = layout.processors();
    if let Some(error) = relocation_fault(regs) {
        return Err(error);
    }
    for i in 0..regs.len() {
        regs[i] = relocate_one(&regs[i], layout.smbase(i as u16), area);
    }
    Ok(())
}
