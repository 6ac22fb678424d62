ghost use Rattle.std.specs.Prelude.{◌≡◌, ◌≢◌, ◌<◌, ◌⊎◌, ◌↔◌, ℕ, true, false, List, ◌∷◌, ◌++◌, length, Some, IsSome, IsSomeAnd};
ghost use Rattle.std.specs.List.{count_by};
ghost use Rattle.smm_base.specs.declared.status.Status.{Status};
ghost use Rattle.save_state_map.specs.Images.{ImageContents};
ghost use Rattle.cpu_regs.specs.Registers.{Registers};
ghost use Rattle.cpu_table.specs.Data.{SetupData};
ghost use Rattle.cpu_table.specs.declared.setup.Mode.TheVariants.{Traditional};
ghost use Rattle.sync_words.specs.declared.label.StartRefusal.{StartRefusal};
ghost use Rattle.sync_words.specs.declared.label.Label.{Label};
ghost use Rattle.sync_words.specs.declared.label.Label.TheVariants as say;
ghost use Rattle.handler_ops.specs.Procedures.{job_on};
ghost use Rattle.rendezvous_machine.specs.Effects.{given};
ghost use Rattle.rendezvous_machine.specs.Machines.{beginning, member};
ghost use Rattle.rendezvous_machine.specs.Listed.{place_of, is_over, IsServed};
ghost use Rattle.rendezvous_machine.specs.Refusals.{refusal};
ghost use Rattle.rendezvous_machine.specs.Runs.{Said, IsRun, machine_after};
ghost use Rattle.rendezvous_machine.specs.Histories.{has_end, is_leading, is_run, HasSaid, HasBegun, HasAll};

use serving_place::standing;

/// What holds of every run of the machine, on each platform and from all registers and images.
pub fn run_laws()
    // Between two elections the session ends.
    ensures sessions { (d : SetupData) (registers : List Registers) (images : List ImageContents) (before middle after : List Said) (i j : ℕ) →
        IsRun d (beginning d registers images) (before ++ ((i, say.Elect) ∷ (middle ++ ((j, say.Elect) ∷ after)))) →
        has_end middle ≡ true }
    // What a boot processor says is said, up to the session's end, by the one that was elected.
    ensures led { (d : SetupData) (registers : List Registers) (images : List ImageContents) (before middle after : List Said) (i j : ℕ) (l : Label) →
        IsRun d (beginning d registers images) (before ++ ((i, say.Elect) ∷ (middle ++ ((j, l) ∷ after)))) →
        has_end middle ≡ false → is_leading l ≡ true → j ≡ i }
    // Each wave is served once at most.
    ensures waves { (d : SetupData) (registers : List Registers) (images : List ImageContents) (before middle after : List Said) (i j w v : ℕ) →
        IsRun d (beginning d registers images) (before ++ ((i, say.Served w) ∷ (middle ++ ((j, say.Served v) ∷ after)))) →
        0 < w → v ≢ w }
    // A refused job is refused for the cause that holds in the state in which the refusal stands.
    ensures refused { (d : SetupData) (registers : List Registers) (images : List ImageContents) (before after : List Said) (i c : ℕ) (cause : StartRefusal) →
        IsRun d (beginning d registers images) (before ++ ((i, say.Refuse c cause) ∷ after)) →
        refusal d (machine_after d (beginning d registers images) before) i ≡ Some cause }
    // A handler is called only after the same boot processor has begun to serve a wave in this session.
    ensures called { (d : SetupData) (registers : List Registers) (images : List ImageContents) (before after : List Said) (i h : ℕ) →
        IsRun d (beginning d registers images) (before ++ ((i, say.Call h) ∷ after)) →
        HasBegun i before }
    // In a session that serves no wave no handler is called.
    ensures calm { (d : SetupData) (registers : List Registers) (images : List ImageContents) (before middle after : List Said) (i j h : ℕ) →
        IsRun d (beginning d registers images) (before ++ ((i, say.Served 0) ∷ (middle ++ ((j, say.Call h) ∷ after)))) →
        has_end middle ≡ true }
    // In the traditional mode every other processor of the closed set has reported in this session before serving begins.
    ensures reported { (d : SetupData) (registers : List Registers) (images : List ImageContents) (before after : List Said) (i j w : ℕ) →
        IsRun d (beginning d registers images) (before ++ ((i, say.Begin w) ∷ after)) →
        d.mode ≡ Traditional → j ≢ i →
        (member (machine_after d (beginning d registers images) before) j).in_closed_set ≡ true →
        HasSaid j say.Report before }
    // In the traditional mode the boot processor closes the session only after it counted all that there are or waited twice.
    ensures waited { (d : SetupData) (registers : List Registers) (images : List ImageContents) (before after : List Said) (i n : ℕ) →
        IsRun d (beginning d registers images) (before ++ ((i, say.Close n) ∷ after)) →
        d.mode ≡ Traditional →
        HasAll d i before ⊎ HasSaid i (say.Expire 2) before }
    // A job that was given is run exactly once by its processor before the session ends.
    ensures once { (d : SetupData) (registers : List Registers) (images : List ImageContents) (before middle after : List Said) (i k c j p a : ℕ) →
        length registers ≡ d.processors → length images ≡ d.processors →
        IsRun d (beginning d registers images) (before ++ ((i, say.Start c j p a) ∷ (middle ++ ((k, say.End) ∷ after)))) →
        has_end middle ≡ false → count_by (is_run c j) middle ≡ 1 }
    // It has the result of its procedure on the image that the processor has then.
    ensures answered { (d : SetupData) (registers : List Registers) (images : List ImageContents) (before middle after : List Said) (i c j p a answer : ℕ) (status : Status) →
        length registers ≡ d.processors → length images ≡ d.processors →
        IsRun d (beginning d registers images) (before ++ ((i, say.Start c j p a) ∷ (middle ++ ((c, say.Run j answer status) ∷ after)))) →
        has_end middle ≡ false →
        (job_on d.procedures (given j p a) (member (machine_after d (beginning d registers images) (before ++ ((i, say.Start c j p a) ∷ middle))) c).image).answer ≡ (answer, status) }
    // A serving list is whole exactly where its place has nothing left to say.
    ensures whole { (d : SetupData) (registers : List Registers) (images : List ImageContents) (es : List Said) →
        IsRun d (beginning d registers images) es →
        let m = machine_after d (beginning d registers images) es in
        IsSomeAnd m.session (λ s. IsSome s.serving) → (is_over (place_of d m) ≡ true) ↔ IsSomeAnd m.session (IsServed d m) }
{
    standing();
}
