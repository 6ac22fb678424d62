ghost use Rattle.std.specs.Prelude.{ℕ, ◌≡◌, ◌≤◌, List, length};
ghost use Rattle.save_state_map.specs.Images.{ImageContents};
ghost use Rattle.cpu_regs.specs.Registers.{Registers};
ghost use Rattle.cpu_table.specs.declared.setup.Setup.{Setup};
ghost use Rattle.cpu_table.specs.Data.{data_of};
ghost use Rattle.cpu_table.specs.Ranges.{events_at_most};
ghost use Rattle.rendezvous_core.specs.Starts.{AreImagesOf};
ghost use Rattle.rendezvous_core.specs.Worlds.{replay_events};
ghost use Rattle.bound_laws.specs.Bounds.{events_of, most_events};

/// How many events there are in any schedule on every platform, whatever its handlers do: a schedule that makes an event at
/// each step ends.
pub fn every_schedule_is_bounded()
    // Each processor, and the chipset, makes at most so many events.
    ensures each { (setup : Setup) (registers : List Registers) (images : List ImageContents) (schedule : List ℕ) (i : ℕ) →
        length registers ≡ setup.processors → AreImagesOf (data_of setup) images →
        let d = data_of setup in
        events_of i (replay_events d registers images schedule) ≤ most_events d }
    // All of them make at most the product of the limits.
    ensures all { (setup : Setup) (registers : List Registers) (images : List ImageContents) (schedule : List ℕ) →
        length registers ≡ setup.processors → AreImagesOf (data_of setup) images →
        let d = data_of setup in
        length (replay_events d registers images schedule) ≤ events_at_most d.processors d.t1 d.t2 d.visits d.ops }
    // And so no schedule makes more events than a platform may have.
    ensures few { (setup : Setup) (registers : List Registers) (images : List ImageContents) (schedule : List ℕ) →
        length registers ≡ setup.processors → AreImagesOf (data_of setup) images →
        length (replay_events (data_of setup) registers images schedule) ≤ 4194304 }
{}
