ghost use Rattle.std.specs.Prelude.{ℕ, ◌≡◌, ◌<◌, List, length, Some};
ghost use Rattle.save_state_map.specs.Images.{ImageContents};
ghost use Rattle.cpu_regs.specs.Registers.{Registers};
ghost use Rattle.cpu_table.specs.declared.setup.Setup.{Setup};
ghost use Rattle.cpu_table.specs.Data.{data_of};
ghost use Rattle.rendezvous_core.specs.Starts.{AreImagesOf};
ghost use Rattle.rendezvous_core.specs.Worlds.{replay_events, replay_world, labels, last_image};
ghost use Rattle.rendezvous_machine.specs.Machines.{beginning, member};
ghost use Rattle.rendezvous_machine.specs.Runs.{IsRun, machine_after};

/// What holds of every schedule on every platform, of 1 to 64 processors: whatever its mode, who may become the BSP, its
/// polls, visits, units, waves and arrivals, its handlers, procedures, causes and memory, and whatever registers and images
/// the processors begin with.
pub fn every_schedule()
    // The labels of the replay are a run of the rendezvous machine.
    ensures run { (setup : Setup) (registers : List Registers) (images : List ImageContents) (schedule : List ℕ) →
        length registers ≡ setup.processors → AreImagesOf (data_of setup) images →
        let d = data_of setup in
        IsRun d (beginning d registers images) (labels (replay_events d registers images schedule)) }
    // The image after of each processor is the machine's last resumed one.
    ensures after { (setup : Setup) (registers : List Registers) (images : List ImageContents) (schedule : List ℕ) (i : ℕ) →
        length registers ≡ setup.processors → AreImagesOf (data_of setup) images → i < setup.processors →
        let d = data_of setup in
        last_image (replay_world d registers images schedule) i ≡
        Some (member (machine_after d (beginning d registers images) (labels (replay_events d registers images schedule))) i).last }
{}
