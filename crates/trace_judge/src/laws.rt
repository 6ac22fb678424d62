ghost use Rattle.std.specs.Prelude.{ℕ, ◌≡◌, ◌↔◌, ◌<◌, ◌^◌, List, length, Ok, Err};
ghost use Rattle.save_state_map.specs.Images.{ImageContents};
ghost use Rattle.cpu_regs.specs.Registers.{Registers};
ghost use Rattle.cpu_table.specs.Data.{SetupData};
ghost use Rattle.rendezvous_machine.specs.Machines.{beginning};
ghost use Rattle.trace_check.specs.Judged.{first_judged};
ghost use Rattle.trace_judge.specs.Traces.{IsTrace, IsFirstFault};
ghost use Rattle.trace_judge.specs.Verdicts.{verdict};
ghost use Rattle.trace_judge.specs.declared.fault.TraceFault.{TraceFault};

use trace_check::trace_laws;

/// What a judgement says of the bytes: it accepts exactly the traces of runs, and what it tells of others is their first
/// fault. It does nothing when it runs.
pub fn judge_laws()
    ensures accepts { (d : SetupData) (registers : List Registers) (images : List ImageContents) (bytes : List ℕ) →
        d.processors < 2 ^ 16 → length bytes < 2 ^ 64 →
        (verdict d.processors (first_judged d registers images) bytes ≡ Ok tt) ↔ IsTrace d (beginning d registers images) bytes }
    ensures refuses { (d : SetupData) (registers : List Registers) (images : List ImageContents) (bytes : List ℕ) (fault : TraceFault) →
        d.processors < 2 ^ 16 →
        verdict d.processors (first_judged d registers images) bytes ≡ Err fault → IsFirstFault d (beginning d registers images) bytes fault }
{
    trace_laws();
}
