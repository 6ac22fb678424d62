ghost use Rattle.std.specs.Prelude.{ℕ, ◌≡◌, ◌++◌, List, length, true};
ghost use Rattle.save_state_map.specs.Images.{ImageContents};
ghost use Rattle.cpu_regs.specs.Registers.{Registers};
ghost use Rattle.cpu_table.specs.declared.setup.Setup.{Setup};
ghost use Rattle.cpu_table.specs.Data.{SetupData, data_of};
ghost use Rattle.rendezvous_core.specs.Starts.{AreImagesOf};
ghost use Rattle.rendezvous_core.specs.Worlds.{replay_events, replay_world, is_complete};
ghost use Rattle.rendezvous_core.specs.Finishes.{rounds, actors_of, IsPrefix};
ghost use Rattle.rendezvous_finish.specs.Finishes.{AreAtMost};

/// What holds of replays that go on until all are off. It does nothing when it runs.
pub fn finish_laws()
    // Every schedule can be finished: after as many rounds as it can have events, all are off.
    ensures ends { (setup : Setup) (registers : List Registers) (images : List ImageContents) (schedule : List ℕ) (most : ℕ) →
        length registers ≡ setup.processors → AreImagesOf (data_of setup) images →
        AreAtMost (data_of setup) registers images most →
        is_complete (replay_world (data_of setup) registers images (schedule ++ rounds setup.processors most)) ≡ true }
    // The events of a schedule's first part come first.
    ensures begins { (d : SetupData) (registers : List Registers) (images : List ImageContents) (schedule more : List ℕ) →
        IsPrefix (replay_events d registers images schedule) (replay_events d registers images (schedule ++ more)) }
    // A replay is that of the actors of its own events, in which each step makes an event.
    ensures own_events { (d : SetupData) (registers : List Registers) (images : List ImageContents) (schedule : List ℕ) →
        replay_events d registers images (actors_of (replay_events d registers images schedule)) ≡ replay_events d registers images schedule }
    ensures own_world { (d : SetupData) (registers : List Registers) (images : List ImageContents) (schedule : List ℕ) →
        replay_world d registers images (actors_of (replay_events d registers images schedule)) ≡ replay_world d registers images schedule }
{}
