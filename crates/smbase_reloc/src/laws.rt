ghost use Rattle.std.specs.Prelude.{◌≡◌, ◌≢◌, ℕ, List, option_map, slice_get, Some, None};
ghost use Rattle.save_state_map.specs.declared.field.Field.{Field};
ghost use Rattle.save_state_map.specs.declared.field.Field.TheVariants.{Smbase};
ghost use Rattle.cpu_table.specs.declared.setup.Smram.{Smram};
ghost use Rattle.cpu_regs.specs.Registers.{Registers, IsRegisters, register_of};
ghost use Rattle.smbase_reloc.specs.Areas.{smbase_of};
ghost use Rattle.smbase_reloc.specs.Relocation.{with_smbase, relocated, relocation_refusal, AreRelocatable};

/// The laws of relocation, over all registers. It does nothing when it runs.
pub fn relocation_laws()
    // Each processor's registers get the SMBASE of its own place.
    ensures each { (area : Smram) (all : List Registers) (i : ℕ) → slice_get (relocated area all) i ≡ option_map (with_smbase (smbase_of area i)) (slice_get all i) }
    // Registers with another SMBASE have that SMBASE, and else what they had.
    ensures smbase { (registers : Registers) (smbase : ℕ) → IsRegisters registers → register_of (with_smbase smbase registers) Smbase ≡ Some smbase }
    ensures others { (registers : Registers) (smbase : ℕ) (field : Field) → Smbase ≢ field → register_of (with_smbase smbase registers) field ≡ register_of registers field }
    // Where nothing is refused, every processor may be relocated.
    ensures relocatable { (all : List Registers) → relocation_refusal all ≡ None → AreRelocatable all }
{}
