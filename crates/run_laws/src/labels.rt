ghost use Rattle.std.specs.Prelude.{◌≡◌, ◌≢◌, ◌<◌, ℕ, true, List, ◌∷◌, ◌++◌, length};
ghost use Rattle.smm_base.specs.declared.status.Status.{Status};
ghost use Rattle.save_state_map.specs.Images.{ImageContents};
ghost use Rattle.cpu_regs.specs.Registers.{Registers};
ghost use Rattle.cpu_table.specs.Data.{SetupData};
ghost use Rattle.cpu_table.specs.declared.setup.Mode.TheVariants.{Traditional};
ghost use Rattle.sync_words.specs.declared.label.StartRefusal.{StartRefusal};
ghost use Rattle.sync_words.specs.declared.label.Label.{Label};
ghost use Rattle.sync_words.specs.declared.label.Label.TheVariants as say;
ghost use Rattle.rendezvous_machine.specs.Machines.{beginning};
ghost use Rattle.rendezvous_machine.specs.Runs.{Said, IsRun};
ghost use Rattle.rendezvous_machine.specs.Histories.{is_leading, HasSaid};
ghost use Rattle.run_laws.specs.Facts.{HasEverSaid, IsEnclosed, HasJob, IsOther, Explains};

use serving_place::standing;

/// What holds of every run of the machine, on each platform and from all registers and images, told by its labels alone.
pub fn label_laws()
    // What a boot processor says it says in a session that began with its own election.
    ensures elected { (d : SetupData) (registers : List Registers) (images : List ImageContents) (before after : List Said) (i : ℕ) (l : Label) →
        IsRun d (beginning d registers images) (before ++ ((i, l) ∷ after)) →
        is_leading l ≡ true → HasSaid i say.Elect before }
    // A wave that is served was announced by the chipset, which is the actor after the processors.
    ensures announced { (d : SetupData) (registers : List Registers) (images : List ImageContents) (before after : List Said) (i w : ℕ) →
        IsRun d (beginning d registers images) (before ++ ((i, say.Served w) ∷ after)) →
        0 < w → HasEverSaid d.processors (say.Wave w) before }
    // In the traditional mode every other processor of the closed set has reported in this session before serving begins.
    ensures reported { (d : SetupData) (registers : List Registers) (images : List ImageContents) (before after : List Said) (i j w : ℕ) →
        IsRun d (beginning d registers images) (before ++ ((i, say.Begin w) ∷ after)) →
        d.mode ≡ Traditional → j ≢ i → IsEnclosed j before → HasSaid j say.Report before }
    // Each refused job has its cause: what the labels before it show of that.
    ensures explained { (d : SetupData) (registers : List Registers) (images : List ImageContents) (before after : List Said) (i c : ℕ) (cause : StartRefusal) →
        IsRun d (beginning d registers images) (before ++ ((i, say.Refuse c cause) ∷ after)) →
        Explains d before i c cause }
    // A job is given to another processor of the platform.
    ensures other { (d : SetupData) (registers : List Registers) (images : List ImageContents) (before after : List Said) (i c j p a : ℕ) →
        IsRun d (beginning d registers images) (before ++ ((i, say.Start c j p a) ∷ after)) →
        IsOther d i c }
    // It is given only to one that has reported in this session.
    ensures present { (d : SetupData) (registers : List Registers) (images : List ImageContents) (before after : List Said) (i c j p a : ℕ) →
        IsRun d (beginning d registers images) (before ++ ((i, say.Start c j p a) ∷ after)) →
        HasSaid c say.Report before }
    // It is given only to one that has no job to run.
    ensures idle { (d : SetupData) (registers : List Registers) (images : List ImageContents) (before after : List Said) (i c j p a n : ℕ) →
        length registers ≡ d.processors → length images ≡ d.processors →
        IsRun d (beginning d registers images) (before ++ ((i, say.Start c j p a) ∷ after)) →
        HasJob c n before → ⊥ }
    // A processor runs only a job that was given to it in this session, and that it hasn't run yet.
    ensures ran { (d : SetupData) (registers : List Registers) (images : List ImageContents) (before after : List Said) (c j answer : ℕ) (status : Status) →
        IsRun d (beginning d registers images) (before ++ ((c, say.Run j answer status) ∷ after)) →
        HasJob c j before }
{
    standing();
}
