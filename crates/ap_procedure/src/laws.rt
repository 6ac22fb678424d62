ghost use Rattle.std.specs.Prelude.{◌≡◌, ℕ, ◌+◌, ◌≤◌, Bool, true, false, List, None, IsSome};
ghost use Rattle.std.specs.List.{list_any};
ghost use Rattle.ap_procedure.specs.Given.{GivenJobs, no_jobs, state_of, assigned, dropped};
ghost use Rattle.ap_procedure.specs.Steps.{Step, MayStep, all_stepped, stepped, is_drop_of, AreGiven};

/// The laws of jobs and tokens over all calls between two `clear`s. It does nothing when it runs.
pub fn job_laws()
    // A job's number is given once: it is at most the count at all later times, and a later job's
    // number is above the count.
    ensures given_once { (cpu : ℕ) (with_token : Bool) (steps : List Step) (state : GivenJobs) → state.given + 1 ≤ (all_stepped steps (assigned cpu with_token state)).given }

    // Each number was given, and no two processors have an uncollected job of one number.
    ensures at_first { (n : ℕ) → AreGiven (no_jobs n) }
    ensures kept { (step : Step) (state : GivenJobs) → MayStep step state → AreGiven state → AreGiven (stepped step state) }

    // A job's token is out from its `give` to its `drop_token`, and at no other time.
    ensures not_before { (state : GivenJobs) → AreGiven state → state_of (state.given + 1) state.tokens ≡ None }
    ensures out_at_first { (cpu : ℕ) (state : GivenJobs) → IsSome (state_of (state.given + 1) (assigned cpu true state).tokens) }
    ensures stays_out { (steps : List Step) (state : GivenJobs) (job : ℕ) → list_any (is_drop_of job) steps ≡ false → IsSome (state_of job state.tokens) → IsSome (state_of job (all_stepped steps state).tokens) }
    ensures not_after { (job : ℕ) (state : GivenJobs) → state_of job (dropped job state).tokens ≡ None }
{}
