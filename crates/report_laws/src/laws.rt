ghost use Rattle.std.specs.Prelude.{ℕ, ◌≡◌, List, length, All};
ghost use Rattle.save_state_map.specs.Images.{ImageContents};
ghost use Rattle.cpu_regs.specs.Registers.{Registers};
ghost use Rattle.cpu_table.specs.declared.setup.Setup.{Setup};
ghost use Rattle.cpu_table.specs.Data.{data_of};
ghost use Rattle.rendezvous_core.specs.Starts.{AreImagesOf};
ghost use Rattle.rendezvous_core.specs.Worlds.{replay_events};
ghost use Rattle.trace_text.specs.Spelling.{IsSpelling};
ghost use Rattle.report_laws.specs.Widths.{NumbersFit};

use cpu_program::program_laws;
use schedule_laws::every_schedule;
use serving_place::standing;

/// What holds of the events of every schedule on every platform whose numbers fit their types, with registers and images of
/// its kind. It does nothing when it runs.
pub fn report_laws()
    // Each event has a spelling: the line that is written of it is read back, as this event alone.
    ensures spelled { (setup : Setup) (registers : List Registers) (images : List ImageContents) (schedule : List ℕ) →
        length registers ≡ setup.processors → All (λ one. one.kind ≡ setup.kind) registers →
        AreImagesOf (data_of setup) images → NumbersFit (data_of setup) →
        All (IsSpelling setup.processors) (replay_events (data_of setup) registers images schedule) }
{
    every_schedule();
    program_laws();
    standing();
}
