ghost use Rattle.std.specs.Prelude.{ℕ, ◌≡◌, Bool, List, Ok};
ghost use Rattle.save_state_map.specs.Images.{ImageContents};
ghost use Rattle.cpu_table.specs.declared.setup.Setup.{Setup};
ghost use Rattle.cpu_table.specs.Data.{data_of};
ghost use Rattle.platform_file.specs.Walk.{setup_read};
ghost use Rattle.rendezvous_core.specs.Starts.{AreImagesOf};
ghost use Rattle.report_laws.specs.Widths.{NumbersFit};
ghost use Rattle.judged_reports.specs.Reports.{replay_report, IsAccepted};

use platform_numbers::file_numbers;
use report_laws::report_laws;
use schedule_laws::every_schedule;
use trace_judge::judge_laws;

/// What the judge of traces says of the reports of replays, whether or not they are complete. It does nothing when it runs.
pub fn every_report()
    // It accepts the report of each schedule's replay, on every platform whose numbers fit their types.
    ensures accepted { (setup : Setup) (images : List ImageContents) (schedule : List ℕ) (complete : Bool) →
        AreImagesOf (data_of setup) images → NumbersFit (data_of setup) →
        IsAccepted (data_of setup) images (replay_report (data_of setup) images schedule complete) }
    // The numbers of each platform that is read from a file do.
    ensures of_files { (bytes : List ℕ) (setup : Setup) (images : List ImageContents) (schedule : List ℕ) (complete : Bool) →
        setup_read bytes ≡ Ok (data_of setup) → AreImagesOf (data_of setup) images →
        IsAccepted (data_of setup) images (replay_report (data_of setup) images schedule complete) }
{
    judge_laws();
    report_laws();
    every_schedule();
    file_numbers();
}
