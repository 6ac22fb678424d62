ghost use Rattle.std.specs.Prelude.{◌≡◌, ℕ, List};
ghost use Rattle.save_state_map.specs.Images.{ImageContents};
ghost use Rattle.cpu_regs.specs.Registers.{Registers};
ghost use Rattle.cpu_table.specs.Data.{SetupData};
ghost use Rattle.sync_words.specs.declared.label.Label.{Label};
ghost use Rattle.rendezvous_machine.specs.Machines.{Machine, beginning};
ghost use Rattle.rendezvous_machine.specs.Runs.{Said, IsRun};
ghost use Rattle.trace_check.specs.Judged.{Judged, first_judged};
ghost use Rattle.trace_check.specs.Stands.{StandsFor, Judges, AreAccepted};

use serving_place::standing;

/// A new checker stands for the beginning of the rendezvous machine; and where it stands for a state, its answer to a label is
/// `Ok` exactly where the label's rule holds in that state, and it stands afterwards for what the label makes of the state. So a
/// new checker accepts each of a list of labels exactly where they are a run of the machine. It does nothing when it runs.
pub fn trace_laws()
    ensures begins { (d : SetupData) (registers : List Registers) (images : List ImageContents) → StandsFor d (first_judged d registers images) (beginning d registers images) }
    ensures judges { (d : SetupData) (j : Judged) (m : Machine) (i : ℕ) (l : Label) → StandsFor d j m → Judges d j m i l }
    ensures runs { (d : SetupData) (registers : List Registers) (images : List ImageContents) (labels : List Said) →
        AreAccepted (first_judged d registers images) labels → IsRun d (beginning d registers images) labels }
    ensures leads { (d : SetupData) (registers : List Registers) (images : List ImageContents) (labels : List Said) →
        IsRun d (beginning d registers images) labels → AreAccepted (first_judged d registers images) labels }
{
    standing();
}
