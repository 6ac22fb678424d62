ghost use Rattle.std.specs.Prelude.{ℕ, ◌≡◌, ◌⊎◌, List, length, true};
ghost use Rattle.save_state_map.specs.Images.{ImageContents};
ghost use Rattle.cpu_regs.specs.Registers.{Registers};
ghost use Rattle.cpu_table.specs.declared.setup.Setup.{Setup};
ghost use Rattle.cpu_table.specs.Data.{data_of};
ghost use Rattle.rendezvous_core.specs.Endings.{CanGoOn};
ghost use Rattle.rendezvous_core.specs.Starts.{AreImagesOf};
ghost use Rattle.rendezvous_core.specs.Worlds.{replay_world, is_complete};

/// What holds of every schedule on every platform, of 1 to 64 processors: whatever its mode, who may become the BSP, its
/// polls, visits, units, waves and arrivals, its handlers, procedures, causes and memory, and whatever registers and images
/// the processors begin with.
pub fn every_world_goes_on()
    // After the schedule all actors are off, or some actor makes an event.
    ensures goes_on { (setup : Setup) (registers : List Registers) (images : List ImageContents) (schedule : List ℕ) →
        length registers ≡ setup.processors → AreImagesOf (data_of setup) images →
        let w = replay_world (data_of setup) registers images schedule in
        (is_complete w ≡ true) ⊎ CanGoOn w }
{}
