ghost use Rattle.std.specs.Prelude.{◌≡◌, ◌<◌, ◌≤◌, ℕ, List, length, take, All, IsTrue, IsSomeAnd, option_map};
ghost use Rattle.save_state_map.specs.Images.{ImageContents, IsImage};
ghost use Rattle.save_state_access.specs.declared.table.Parts.{Parts};
ghost use Rattle.save_state_access.specs.Table.{parts_numbered};
ghost use Rattle.save_state_access.specs.Width.{parts_width};
ghost use Rattle.save_state_access.specs.Reading.{register_at, register_bytes};
ghost use Rattle.save_state_access.specs.Writing.{is_written, with_low_bytes};

/// The laws of the register service. It does nothing when it runs.
pub fn service_laws()
    // An image has a register exactly where its map gives it a width, and in that width.
    ensures widths { (m : ImageContents) (number : ℕ) → option_map (λ register. register.0) (register_at m number) ≡ parts_width m.kind (parts_numbered number) }

    // Where the map has the register, the low bytes that were written are the low bytes that are read.
    ensures written_is_read { (m : ImageContents) (parts : Parts) (new : List ℕ) → IsImage m → All (λ byte. byte < 256) new → IsTrue (is_written parts)
        → IsSomeAnd (register_bytes m parts) (λ register. length new ≤ register.0)
        → IsSomeAnd (register_bytes (with_low_bytes m parts new) parts) (λ register. take (length new) register.1 ≡ new) }
{}
