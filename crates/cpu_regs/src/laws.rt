ghost use Rattle.std.specs.Prelude.{◌≡◌, ◌<◌, ◌^◌, IfSome, None, if◌then◌else◌};
ghost use Rattle.save_state_map.specs.declared.field.Field.{Field};
ghost use Rattle.save_state_map.specs.Images.{field_of};
ghost use Rattle.smm_base.specs.declared.kinds.Cause.{Cause};
ghost use Rattle.save_state_map.specs.Images.{ImageContents, IsImage};
ghost use Rattle.cpu_regs.specs.Registers.{Registers, IsRegisters, is_event_field, loaded, register_of};
ghost use Rattle.cpu_regs.specs.Entering.{saved};

/// The laws of entering and resuming, over all registers, causes and images. It does nothing when it runs.
pub fn switch_laws()
    // Resuming from the image that entering left, with no write between, gives the same registers.
    ensures registers_back { (registers : Registers) (cause : Cause) (m : ImageContents) → IsRegisters registers → IsImage m → registers.kind ≡ m.kind
        → IfSome cause.io (λ io. io.port < 2 ^ 16) → loaded (saved registers cause m) ≡ registers }

    // The registers that are loaded from an image are its fields, but for those that tell of the interrupt.
    ensures loaded_fields { (m : ImageContents) (field : Field) → register_of (loaded m) field ≡ (if is_event_field field then None else field_of m field) }

    // What is loaded from an image are registers of its kind, and what entering leaves is an image of the same kind.
    ensures loaded_registers { (m : ImageContents) → IsImage m → IsRegisters (loaded m) }
    ensures saved_image { (registers : Registers) (cause : Cause) (m : ImageContents) → IsImage m → IsImage (saved registers cause m) }
    ensures saved_kind { (registers : Registers) (cause : Cause) (m : ImageContents) → (saved registers cause m).kind ≡ m.kind }
{}
