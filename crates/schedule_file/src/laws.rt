ghost use Rattle.std.specs.Prelude.{◌≡◌, ◌<◌, ◌≤◌, ℕ, List, length, Ok, Err};
ghost use Rattle.schedule_file.specs.Schedule.{schedule_of};
ghost use Rattle.schedule_file.specs.Says.{SaysSchedule};
ghost use Rattle.schedule_file.specs.declared.error.ScheduleError.TheVariants.{TooLong};

/// The laws of schedules, over every text and every platform: what is read of a text is what it says. It does nothing
/// when it runs.
pub fn schedule_laws()
    // The actors that are read are those that the text says, and at most 4,194,304.
    ensures said { (n : ℕ) (text actors : List ℕ) → schedule_of n text ≡ Ok actors → SaysSchedule n text actors }
    ensures few { (n : ℕ) (text actors : List ℕ) → schedule_of n text ≡ Ok actors → length actors ≤ 4194304 }

    // A text that says actors is read as these, unless they are too many.
    ensures read { (n : ℕ) (text actors : List ℕ) → n ≤ 65535 → SaysSchedule n text actors → length actors ≤ 4194304 → schedule_of n text ≡ Ok actors }
    ensures long { (n : ℕ) (text actors : List ℕ) → n ≤ 65535 → SaysSchedule n text actors → 4194304 < length actors → schedule_of n text ≡ Err TooLong }
{}
