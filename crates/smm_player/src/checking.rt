ghost use Rattle.std.specs.Prelude.{◌≡◌, None, Ok, IfErr, IfOk, OnOk};
ghost use Rattle.smm_base.specs.Calls.{Leads};
ghost use Rattle.smm_base.specs.Faults.{Rose};
ghost use Rattle.smm_base.specs.Sink.{appended};
ghost use Rattle.cpu_table.specs.Data.{data_of};
ghost use Rattle.rendezvous_core.specs.Starts.{AreImagesOf, start_refusal};
ghost use Rattle.smm_player.specs.Due.{trace_with, trace_on, trace_plan_due, trace_judged, IsDue};
ghost use Rattle.smm_player.specs.Ending.{EndsJudging};
ghost use Rattle.smm_player.specs.Loading.{LoadCause, StopsReading};
ghost use Rattle.smm_player.specs.Outcome.{run_line};
ghost use Rattle.smm_player.specs.Traces.{trace_plan_of, IsJudgeable};

use crate::fault::Fault;
use crate::images::ImagesFault;
use crate::load::{load_file, load_images, load_platform};
use crate::making::write_output;
use crate::refusal::Refusal;
use crate::trace::TraceInputs;
use cpu_table::Setup;
use rendezvous_core::start_fault;
use save_state_map::Image;
use smm_base::{Sink, Store};
use smm_command::Check;
use std::alloc::Global;
use trace_check::Machine;
use trace_judge::judge;

/// How many bytes a trace has at most.
const TRACE_LIMIT: u64 = 536_870_912;

// Loads the trace, once the platform and the images are there.
fn load_trace_with<F: Store>(
    alloc: Global,
    names: &Check,
    setup: Setup,
    images: Vec<Image>,
    store: &mut F,
) -> Result<TraceInputs, Fault>
    requires { AreImagesOf (data_of setup) images.items }
    ensures judgeable { IfOk result (λ inputs. IsJudgeable (trace_plan_of inputs)) }
    ensures due { IfOk result (λ inputs. IsDue (trace_with names.now (data_of setup) images.items) (F.files store.old) (trace_plan_of inputs)) }
    ensures cause { IfErr result (LoadCause (trace_with names.now (data_of setup) images.items) (F.files store.old) (Rose (F.failed_loads store.old) (F.failed_loads store.new))) }
    ensures files_stay { F.files store.new ≡ F.files store.old }
    ensures moved { Leads F.moves store.old store.new }
{
    match load_file(alloc, &names.trace, TRACE_LIMIT, store) {
        Ok(bytes) => Ok(TraceInputs {
            setup,
            images,
            bytes,
        }),
        Err(fault) => Err(fault),
    }
}

// Loads what is left once the platform is there.
fn load_trace_on<F: Store>(
    alloc: Global,
    names: &Check,
    setup: Setup,
    store: &mut F,
) -> Result<TraceInputs, Fault>
    ensures judgeable { IfOk result (λ inputs. IsJudgeable (trace_plan_of inputs)) }
    ensures due { IfOk result (λ inputs. IsDue (trace_on names.now (data_of setup)) (F.files store.old) (trace_plan_of inputs)) }
    ensures cause { IfErr result (LoadCause (trace_on names.now (data_of setup)) (F.files store.old) (Rose (F.failed_loads store.old) (F.failed_loads store.new))) }
    ensures files_stay { F.files store.new ≡ F.files store.old }
    ensures moved { Leads F.moves store.old store.new }
{
    match load_images(alloc, &names.images, &setup, store) {
        Ok(images) => load_trace_with(alloc, names, setup, images, store),
        Err(fault) => Err(fault),
    }
}

// Loads the three input files of a check, one after another, and reads the first two.
pub(crate) fn load_trace<F: Store>(
    alloc: Global,
    names: &Check,
    store: &mut F,
) -> Result<TraceInputs, Fault>
    ensures judgeable { IfOk result (λ inputs. IsJudgeable (trace_plan_of inputs)) }
    ensures due { IfOk result (λ inputs. IsDue (trace_plan_due names.now) (F.files store.old) (trace_plan_of inputs)) }
    ensures cause { IfErr result (LoadCause (trace_plan_due names.now) (F.files store.old) (Rose (F.failed_loads store.old) (F.failed_loads store.new))) }
    ensures files_stay { F.files store.new ≡ F.files store.old }
    ensures moved { Leads F.moves store.old store.new }
{
    match load_platform(alloc, &names.platform, store) {
        Ok(setup) => load_trace_on(alloc, names, setup, store),
        Err(fault) => Err(fault),
    }
}

// Judges a trace whose processors can begin with their images.
#[tactic(auto, using(crate::proofs::CheckLemmas::judged_is))]
fn judge_started(alloc: Global, inputs: &TraceInputs) -> Result<(), Fault>
    requires judgeable { IsJudgeable (trace_plan_of inputs.now) }
    requires relocatable { start_refusal (data_of inputs.now.setup) inputs.now.images.items ≡ None }
    ensures judged { OnOk result (trace_judged (trace_plan_of inputs.now) ≡ Ok tt) }
    ensures cause { IfErr result (StopsReading (trace_judged (trace_plan_of inputs.now))) }
{
    match Machine::new(alloc, &inputs.setup, &inputs.images) {
        Ok(machine) => match judge(machine, inputs.setup.processors, &inputs.bytes) {
            Ok(()) => Ok(()),
            Err(fault) => Err(Fault::Refused(Refusal::Trace(fault))),
        },
        Err(_) => Err(Fault::Memory),
    }
}

// Judges a trace.
fn judge_inputs(alloc: Global, inputs: &TraceInputs) -> Result<(), Fault>
    requires { IsJudgeable (trace_plan_of inputs.now) }
    ensures judged { OnOk result (trace_judged (trace_plan_of inputs.now) ≡ Ok tt) }
    ensures cause { IfErr result (StopsReading (trace_judged (trace_plan_of inputs.now))) }
{
    match start_fault(&inputs.setup, &inputs.images) {
        None => judge_started(alloc, inputs),
        Some(error) => Err(Fault::Refused(Refusal::Images(ImagesFault::NotRelocated(error)))),
    }
}

// Judges a trace, and tells where it is one of a run.
pub(crate) fn check_inputs<K: Sink>(
    alloc: Global,
    inputs: &TraceInputs,
    out: &mut K,
) -> Result<(), Fault>
    requires { IsJudgeable (trace_plan_of inputs.now) }
    ensures judged { OnOk result (trace_judged (trace_plan_of inputs.now) ≡ Ok tt) }
    ensures written { OnOk result (K.written out.new ≡ appended (K.written out.old) run_line) }
    ensures ends { IfErr result (EndsJudging (Rose (K.faults out.old) (K.faults out.new)) (trace_judged (trace_plan_of inputs.now)) (K.written out.old) (K.written out.new) run_line) }
    ensures moved { Leads K.moves out.old out.new }
{
    match judge_inputs(alloc, inputs) {
        Ok(()) => write_output(b"run\n", out),
        Err(fault) => Err(fault),
    }
}
