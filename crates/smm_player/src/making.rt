ghost use Rattle.std.specs.Prelude.{◌≡◌, IfErr, OnOk};
ghost use Rattle.smm_base.specs.Calls.{Leads};
ghost use Rattle.smm_base.specs.Faults.{Rose};
ghost use Rattle.smm_base.specs.Sink.{appended};
ghost use Rattle.smm_command.specs.Recipes.{IsRecipe};
ghost use Rattle.replay_report.specs.Plan.{IsPlayable};
ghost use Rattle.generated_rounds.specs.Rounds.{platform_text, sum_plan, last_line_of};
ghost use Rattle.smm_player.specs.Ending.{EndsWriting};

use crate::fault::Fault;
use generated_rounds::{platform_text, sum_line};
use smm_base::{Sink, WriteError, write_all};
use smm_command::Recipe;
use std::alloc::Global;

// Writes all that a command has to tell.
pub(crate) fn write_output<K: Sink>(bytes: &[u8], out: &mut K) -> Result<(), Fault>
    ensures written { OnOk result (K.written out.new ≡ appended (K.written out.old) bytes.now) }
    ensures ends { IfErr result (EndsWriting (Rose (K.faults out.old) (K.faults out.new)) (K.written out.old) (K.written out.new) bytes.now) }
    ensures moved { Leads K.moves out.old out.new }
{
    match write_all(out, bytes) {
        Ok(()) => Ok(()),
        Err(WriteError::Failed) => Err(Fault::Write),
        Err(WriteError::NoMemory) => Err(Fault::Memory),
    }
}

// Writes the text of the generated platform.
pub(crate) fn make<K: Sink>(alloc: Global, recipe: Recipe, out: &mut K) -> Result<(), Fault>
    requires { IsRecipe recipe }
    ensures written { OnOk result (K.written out.new ≡ appended (K.written out.old) (platform_text recipe)) }
    ensures ends { IfErr result (EndsWriting (Rose (K.faults out.old) (K.faults out.new)) (K.written out.old) (K.written out.new) (platform_text recipe)) }
    ensures moved { Leads K.moves out.old out.new }
{
    match platform_text(alloc, recipe) {
        Ok(text) => write_output(&text, out),
        Err(_) => Err(Fault::Memory),
    }
}

// Writes the last line of the replay on the generated platform.
pub(crate) fn sum<K: Sink>(alloc: Global, recipe: Recipe, out: &mut K) -> Result<(), Fault>
    requires { IsRecipe recipe }
    ensures playable { OnOk result (IsPlayable (sum_plan recipe)) }
    ensures written { OnOk result (K.written out.new ≡ appended (K.written out.old) (last_line_of (sum_plan recipe))) }
    ensures ends { IfErr result (EndsWriting (Rose (K.faults out.old) (K.faults out.new)) (K.written out.old) (K.written out.new) (last_line_of (sum_plan recipe))) }
    ensures moved { Leads K.moves out.old out.new }
{
    match sum_line(alloc, recipe) {
        Ok(line) => write_output(&line, out),
        Err(_) => Err(Fault::Memory),
    }
}
