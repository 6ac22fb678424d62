ghost use Rattle.std.specs.Prelude.{◌≡◌, IfErr, OnOk, Some};
ghost use Rattle.smm_base.specs.Calls.{Leads};
ghost use Rattle.smm_base.specs.Faults.{Rose};
ghost use Rattle.smm_base.specs.Sink.{appended};
ghost use Rattle.smm_base.specs.Store.{ChangesOnly};
ghost use Rattle.cpu_table.specs.Data.{data_of};
ghost use Rattle.rendezvous_core.specs.Starts.{AreImagesOf};
ghost use Rattle.finished_replay.specs.Finished.{finished, ReachesEnd};
ghost use Rattle.smm_player.specs.Ending.{EndsReplay, UnlessSaved, SaveFault};
ghost use Rattle.smm_player.specs.Outcome.{images_saving, IsSaved};
ghost use Rattle.replay_report.specs.Plan.{plan_of, IsPlayable};
ghost use Rattle.replay_report.specs.Replays.{replayed, report_of, AreImagesAfter};
ghost use Rattle.replay_report.specs.Report.{report_text};

use crate::fault::Fault;
use cpu_table::{Setup, Text};
use finished_replay::finished_replay_of;
use image_file::write_images;
use replay_report::{Inputs, Replay, replay_of, write_report};
use save_state_map::Image;
use smm_base::{SaveError, Sink, Store, WriteError};
use std::alloc::Global;

// Saves images, one for each processor of a setup.
fn save_images<F: Store>(
    alloc: Global,
    name: &Text,
    setup: &Setup,
    images: &Vec<Image>,
    store: &mut F,
) -> Result<(), Fault>
    requires { AreImagesOf (data_of setup.now) images.now.items }
    ensures saved { OnOk result (IsSaved (Some (images_saving name.now setup.now.kind images.now.items)) (F.files store.new)) }
    ensures others_stay { ChangesOnly name.now (F.files store.old) (F.files store.new) }
    ensures fault { IfErr result (SaveFault (Rose (F.failed_saves store.old) (F.failed_saves store.new)) (F.files store.new ≡ F.files store.old)) }
    ensures moved { Leads F.moves store.old store.new }
{
    let bytes = match write_images(alloc, setup.kind, images) {
        Ok(bytes) => bytes,
        Err(_) => return Err(Fault::Memory),
    };
    match store.save(name.as_str(), &bytes) {
        Ok(()) => Ok(()),
        Err(SaveError::Failed) => Err(Fault::Save),
        Err(SaveError::NoMemory) => Err(Fault::Memory),
    }
}

// Writes the report of a replay on a setup, and saves the images after.
fn conclude<F: Store, K: Sink>(
    alloc: Global,
    name: &Text,
    setup: &Setup,
    replay: &Replay,
    store: &mut F,
    out: &mut K,
) -> Result<(), Fault>
    requires { AreImagesOf (data_of setup.now) replay.now.images }
    ensures written { OnOk result (K.written out.new ≡ appended (K.written out.old) (report_text setup.now.processors replay.now.events replay.now.complete)) }
    ensures saved { OnOk result (IsSaved (Some (images_saving name.now setup.now.kind replay.now.images)) (F.files store.new)) }
    ensures ends { IfErr result (EndsReplay (Rose (K.faults out.old) (K.faults out.new)) (Rose (F.failed_saves store.old) (F.failed_saves store.new)) (K.written out.old) (K.written out.new) (report_text setup.now.processors replay.now.events replay.now.complete)) }
    ensures unsaved { IfErr result (UnlessSaved (F.files store.new ≡ F.files store.old)) }
    ensures others_stay { ChangesOnly name.now (F.files store.old) (F.files store.new) }
    ensures store_moved { Leads F.moves store.old store.new }
    ensures sink_moved { Leads K.moves out.old out.new }
{
    match write_report(
        alloc,
        setup.processors,
        replay.events(),
        replay.complete(),
        out,
    ) {
        Ok(()) => save_images(alloc, name, setup, replay.images(), store),
        Err(WriteError::Failed) => Err(Fault::Write),
        Err(WriteError::NoMemory) => Err(Fault::Memory),
    }
}

// Replays a schedule, writes its report, and saves the images after under a name.
pub(crate) fn replay_inputs<F: Store, K: Sink>(
    alloc: Global,
    inputs: &Inputs,
    name: &Text,
    store: &mut F,
    out: &mut K,
) -> Result<(), Fault>
    requires { IsPlayable (plan_of inputs.now) }
    ensures images { OnOk result (AreImagesAfter (plan_of inputs.now) (replayed (plan_of inputs.now)).images) }
    ensures written { OnOk result (K.written out.new ≡ appended (K.written out.old) (report_of (plan_of inputs.now))) }
    ensures saved { OnOk result (IsSaved (Some (images_saving name.now inputs.now.setup.kind (replayed (plan_of inputs.now)).images)) (F.files store.new)) }
    ensures ends { IfErr result (EndsReplay (Rose (K.faults out.old) (K.faults out.new)) (Rose (F.failed_saves store.old) (F.failed_saves store.new)) (K.written out.old) (K.written out.new) (report_of (plan_of inputs.now))) }
    ensures unsaved { IfErr result (UnlessSaved (F.files store.new ≡ F.files store.old)) }
    ensures others_stay { ChangesOnly name.now (F.files store.old) (F.files store.new) }
    ensures store_moved { Leads F.moves store.old store.new }
    ensures sink_moved { Leads K.moves out.old out.new }
{
    match replay_of(alloc, inputs) {
        Ok(replay) => conclude(alloc, name, &inputs.setup, &replay, store, out),
        Err(_) => Err(Fault::Memory),
    }
}

// Replays a schedule, goes on until every actor is off, writes the report, and saves the images after under a name.
pub(crate) fn finish_inputs<F: Store, K: Sink>(
    alloc: Global,
    inputs: &Inputs,
    name: &Text,
    store: &mut F,
    out: &mut K,
) -> Result<(), Fault>
    requires { IsPlayable (plan_of inputs.now) }
    ensures ends_all { ReachesEnd (plan_of inputs.now) }
    ensures images { OnOk result (AreImagesAfter (finished (plan_of inputs.now)) (replayed (finished (plan_of inputs.now))).images) }
    ensures written { OnOk result (K.written out.new ≡ appended (K.written out.old) (report_of (finished (plan_of inputs.now)))) }
    ensures saved { OnOk result (IsSaved (Some (images_saving name.now inputs.now.setup.kind (replayed (finished (plan_of inputs.now))).images)) (F.files store.new)) }
    ensures ends { IfErr result (EndsReplay (Rose (K.faults out.old) (K.faults out.new)) (Rose (F.failed_saves store.old) (F.failed_saves store.new)) (K.written out.old) (K.written out.new) (report_of (finished (plan_of inputs.now)))) }
    ensures unsaved { IfErr result (UnlessSaved (F.files store.new ≡ F.files store.old)) }
    ensures others_stay { ChangesOnly name.now (F.files store.old) (F.files store.new) }
    ensures store_moved { Leads F.moves store.old store.new }
    ensures sink_moved { Leads K.moves out.old out.new }
{
    match finished_replay_of(alloc, inputs) {
        Ok(replay) => conclude(alloc, name, &inputs.setup, &replay, store, out),
        Err(_) => Err(Fault::Memory),
    }
}
