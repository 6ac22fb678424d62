ghost use Rattle.std.specs.Prelude.{◌≡◌, ◌≢◌, ◌⊎◌, IfErr, IfSome, IsOk, IsSomeAnd, IsTrue, MatchOption, None, OnOk};
ghost use Rattle.smm_base.specs.Calls.{Leads};
ghost use Rattle.smm_base.specs.Faults.{Rose};
ghost use Rattle.smm_base.specs.Store.{ChangesOnly};
ghost use Rattle.smm_command.specs.Commands.{texts, form_of, IsCommand};
ghost use Rattle.smm_player.specs.Ending.{Tells, UnlessSaved};
ghost use Rattle.smm_player.specs.Outcome.{due, saved_name, ChangesOnlyNamed};
ghost use Rattle.smm_player.specs.Performing.{Performs, StopsAt, WroteBefore};
ghost use Rattle.smm_player.specs.Play.{is_exit_status, IsDone, IsPlayed, IsFaulted, FailsOutside, RunsOut, UsageRunsOut, IsDueStatus, ChangesOnlySaved, Obeys};
ghost use Rattle.smm_player.specs.Refusal.{usage_line};
ghost use Rattle.smm_command.specs.declared.command.Command.TheVariants.{Step as step_command, Finish as finish_command, Check as check_command};

use crate::checking::{check_inputs, load_trace};
use crate::ending::{end_without_memory, finish, tell};
use crate::fault::Fault;
use crate::load::load_inputs;
use crate::making::{make, sum};
use crate::step::{finish_inputs, replay_inputs};
use smm_base::{Sink, Store};
use smm_command::{Check, Command, Step, command_of};
use std::alloc::Global;
use trace_judge::judge_laws;

// Does a step.
fn perform_step<F: Store, K: Sink>(
    alloc: Global,
    names: &Step,
    store: &mut F,
    out: &mut K,
) -> Result<(), Fault>
    ensures done { OnOk result (Performs (step_command names.now) (F.files store.old) (F.files store.new) (K.written out.old) (K.written out.new)) }
    ensures cause { IfErr result (StopsAt (step_command names.now) (F.files store.old) (Rose (F.failed_loads store.old) (F.failed_loads store.new)) (Rose (K.faults out.old) (K.faults out.new)) (Rose (F.failed_saves store.old) (F.failed_saves store.new))) }
    ensures wrote { IfErr result (WroteBefore (step_command names.now) (F.files store.old) (K.written out.old) (K.written out.new)) }
    ensures unsaved { IfErr result (UnlessSaved (F.files store.new ≡ F.files store.old)) }
    ensures others_stay { ChangesOnly names.now.after (F.files store.old) (F.files store.new) }
    ensures store_moved { Leads F.moves store.old store.new }
    ensures sink_moved { Leads K.moves out.old out.new }
{
    match load_inputs(alloc, names, store) {
        Ok(inputs) => replay_inputs(alloc, &inputs, &names.after, store, out),
        Err(fault) => Err(fault),
    }
}

// Does a finish.
fn perform_finish<F: Store, K: Sink>(
    alloc: Global,
    names: &Step,
    store: &mut F,
    out: &mut K,
) -> Result<(), Fault>
    ensures done { OnOk result (Performs (finish_command names.now) (F.files store.old) (F.files store.new) (K.written out.old) (K.written out.new)) }
    ensures cause { IfErr result (StopsAt (finish_command names.now) (F.files store.old) (Rose (F.failed_loads store.old) (F.failed_loads store.new)) (Rose (K.faults out.old) (K.faults out.new)) (Rose (F.failed_saves store.old) (F.failed_saves store.new))) }
    ensures wrote { IfErr result (WroteBefore (finish_command names.now) (F.files store.old) (K.written out.old) (K.written out.new)) }
    ensures unsaved { IfErr result (UnlessSaved (F.files store.new ≡ F.files store.old)) }
    ensures others_stay { ChangesOnly names.now.after (F.files store.old) (F.files store.new) }
    ensures store_moved { Leads F.moves store.old store.new }
    ensures sink_moved { Leads K.moves out.old out.new }
{
    match load_inputs(alloc, names, store) {
        Ok(inputs) => finish_inputs(alloc, &inputs, &names.after, store, out),
        Err(fault) => Err(fault),
    }
}

// Does a check.
fn perform_check<F: Store, K: Sink>(
    alloc: Global,
    names: &Check,
    store: &mut F,
    out: &mut K,
) -> Result<(), Fault>
    ensures done { OnOk result (Performs (check_command names.now) (F.files store.old) (F.files store.new) (K.written out.old) (K.written out.new)) }
    ensures cause { IfErr result (StopsAt (check_command names.now) (F.files store.old) (Rose (F.failed_loads store.old) (F.failed_loads store.new)) (Rose (K.faults out.old) (K.faults out.new)) (Rose (F.failed_saves store.old) (F.failed_saves store.new))) }
    ensures wrote { IfErr result (WroteBefore (check_command names.now) (F.files store.old) (K.written out.old) (K.written out.new)) }
    ensures unsaved { IfErr result (UnlessSaved (F.files store.new ≡ F.files store.old)) }
    ensures others_stay { F.files store.new ≡ F.files store.old }
    ensures store_moved { Leads F.moves store.old store.new }
    ensures sink_moved { Leads K.moves out.old out.new }
{
    match load_trace(alloc, names, store) {
        Ok(inputs) => check_inputs(alloc, &inputs, out),
        Err(fault) => Err(fault),
    }
}

// Does a command.
fn perform<F: Store, K: Sink>(
    alloc: Global,
    command: &Command,
    store: &mut F,
    out: &mut K,
) -> Result<(), Fault>
    requires in_range { IsCommand command.now }
    ensures done { OnOk result (Performs command.now (F.files store.old) (F.files store.new) (K.written out.old) (K.written out.new)) }
    ensures cause { IfErr result (StopsAt command.now (F.files store.old) (Rose (F.failed_loads store.old) (F.failed_loads store.new)) (Rose (K.faults out.old) (K.faults out.new)) (Rose (F.failed_saves store.old) (F.failed_saves store.new))) }
    ensures wrote { IfErr result (WroteBefore command.now (F.files store.old) (K.written out.old) (K.written out.new)) }
    ensures unsaved { IfErr result (UnlessSaved (F.files store.new ≡ F.files store.old)) }
    ensures others_stay { ChangesOnlyNamed (saved_name command.now) (F.files store.old) (F.files store.new) }
    ensures store_moved { Leads F.moves store.old store.new }
    ensures sink_moved { Leads K.moves out.old out.new }
{
    match command {
        Command::Step(names) => perform_step(alloc, names, store, out),
        Command::Finish(names) => perform_finish(alloc, names, store, out),
        Command::Check(names) => perform_check(alloc, names, store, out),
        Command::Make(recipe) => make(alloc, *recipe, out),
        Command::Sum(recipe) => sum(alloc, *recipe, out),
    }
}

// Does a command, and answers the exit status.
fn obey<F: Store, K: Sink>(alloc: Global, command: &Command, store: &mut F, out: &mut K) -> u8
    requires in_range { IsCommand command.now }
    ensures obeys { Obeys command.now (F.files store.old) (F.files store.new) (Rose (F.failed_loads store.old) (F.failed_loads store.new)) (Rose (K.faults out.old) (K.faults out.new)) (Rose (F.failed_saves store.old) (F.failed_saves store.new)) (K.written out.old) (K.written out.new) result }
    ensures store_moved { Leads F.moves store.old store.new }
    ensures sink_moved { Leads K.moves out.old out.new }
{
    judge_laws();
    let done = perform(alloc, command, store, out);
    finish(alloc, done, out)
}

/// Does the command of the words, and answers the exit status.
///
/// | words | what is done |
/// |---|---|
/// | `step PLATFORM IMAGES SCHEDULE AFTER` | replays the schedule on the platform, writes the report to the sink, and saves the images that the processors last resumed from, or their first ones, under the name AFTER, as an image file of the platform's kind |
/// | `finish PLATFORM IMAGES SCHEDULE AFTER` | does what `step` does, but steps all actors round and round behind the schedule until every one is off |
/// | `check PLATFORM IMAGES TRACE` | judges a report: writes `run` where its labels are a run of the rendezvous machine of the platform, from these images, and its last line has their numbers |
/// | `make NUMBER N` | writes the platform file of N processors that is generated from NUMBER |
/// | `sum NUMBER N` | replays 2,000 rounds of all actors on that platform, from images of zeros with the revision 30004H and the SMBASE 30000H, and writes the report's last line alone |
///
/// NUMBER is a decimal number up to 4,294,967,295, and N one from 1 to 64, without a sign and without
/// leading zeros. No word begins with `-`. Every platform that a platform file can describe is played.
///
/// | status | line | when |
/// |---|---|---|
/// | 0 | none | all was done |
/// | 1 | `fault usage` | the words are of no command's form |
/// | 2 | `fault platform not-toml` | the platform file is no TOML document |
/// | 2 | `fault platform missing KEY` | a key isn't there that must be |
/// | 2 | `fault platform type KEY` | a value is of another kind |
/// | 2 | `fault platform word KEY` | a text is none of the words that the key may have |
/// | 2 | `fault platform range KEY NUMBER` | a number, or the length of a list, is out of its range; NUMBER may be negative |
/// | 2 | `fault platform unknown KEY` | a table has no such key |
/// | 2 | `fault platform too-large EVENTS` | a schedule could make so many events, which are more than 4,194,304 |
/// | 2 | `fault platform bad-tile T` | the area for save states is laid out in tiles of T bytes, which is no size of a tile |
/// | 2 | `fault platform code-too-long C` | its entry code has C bytes, for which a tile has no room |
/// | 2 | `fault platform low B` | it begins at B, below 40000H |
/// | 2 | `fault platform past-end E` | the processors' places end at E, after the area's end |
/// | 3 | `fault images short LEN` | the image file has LEN bytes, and its images take more |
/// | 3 | `fault images magic` | it doesn't begin with `SMIM` |
/// | 3 | `fault images version N` | its version isn't 1 |
/// | 3 | `fault images kind N` | its kind is neither 0 nor 1 |
/// | 3 | `fault images count N` | it says that it holds no image, or more than 64 |
/// | 3 | `fault images long LEN` | it has LEN bytes, and its images take fewer |
/// | 3 | `fault images kind-differs` | its images are not of the platform's kind |
/// | 3 | `fault images count-differs P F` | the platform has P processors, and the file F images |
/// | 3 | `fault images no-relocation I` | bit 17 of the revision of processor I is 0, and the platform has an area for save states |
/// | 3 | `fault images not-default I` | the SMBASE of processor I isn't 30000H, and the platform has an area for save states |
/// | 4 | `fault schedule token AT` | the item that starts at the byte AT, counted from 0, is none |
/// | 4 | `fault schedule actor AT NUMBER` | the item that starts at the byte AT names an actor that the platform hasn't |
/// | 4 | `fault schedule too-long` | the items stand for more than 4,194,304 actors |
/// | 5 | `fault trace line L text` | the line L of the trace, counted from 1, is no line of an event, and none that ends it |
/// | 5 | `fault trace line L rule R` | the line L breaks the rule R; R is 32 where the numbers of the last line are not the trace's |
/// | 6 | `fault read NAME` | a load failed, or the store hasn't the file |
/// | 6 | `fault too-long NAME LIMIT` | the file has more bytes than its limit: 1,048,576 for the platform, 65,548 for the images, 4,194,304 for the schedule, 536,870,912 for the trace |
/// | 7 | none | a write or the save failed; where a write failed nothing is saved |
/// | 8 | `fault memory` | want of memory |
///
/// The words are judged first. Then each file is loaded and judged, in the order of the words: the
/// platform, the images, the schedule or the trace. Of images their kind comes before their count. Whether
/// the processors can be relocated is judged when the schedule is read, and when the trace is loaded. With another status than 0 and 7
/// nothing is saved, and no name but AFTER ever changes. `check` saves nothing, and
/// `make` and `sum` load nothing either.
pub fn play<F: Store, K: Sink>(alloc: Global, words: &Vec<String>, store: &mut F, out: &mut K) -> u8
    ensures status { IsTrue (is_exit_status result) }

    // Status 0: what is due for the command and the held files was written and saved.
    ensures done { result ≡ 0 → IsSomeAnd (form_of (texts words.now.items)) (λ asked. IsDone asked (F.files store.old) (F.files store.new) (K.written out.old) (K.written out.new)) }

    // Of a step that is the report of the replay that is due, and under AFTER the image that each processor last resumed
    // from, in the platform's kind. The labels are a run of the rendezvous machine, from which the images follow. A finish has
    // done the same with a replay that is carried on until every actor is off: its first events are those of the schedule, and
    // it is the replay of the actors of its own lines. Of a make it is the text of the generated platform, and of a sum the last
    // line of its replay, whose labels are a run too. Of a check it is that the trace is one of a run.
    ensures played { result ≡ 0 → IsSomeAnd (form_of (texts words.now.items)) (λ asked. IsPlayed asked (F.files store.old) (F.files store.new) (K.written out.old) (K.written out.new)) }

    // Status 1 comes exactly where the words are of no form, unless there is no memory.
    ensures usage_only { result ≡ 1 → form_of (texts words.now.items) ≡ None }
    ensures usage { form_of (texts words.now.items) ≡ None → (result ≡ 1) ⊎ (result ≡ 8) }
    ensures usage_told { result ≡ 1 → Tells (Rose (K.faults out.old) (K.faults out.new)) (K.written out.old) (K.written out.new) usage_line }

    // Each of the statuses 2 to 6 has a refusal with its cause, and its line is told.
    ensures faulted { (result ≡ 2) ⊎ (result ≡ 3) ⊎ (result ≡ 4) ⊎ (result ≡ 5) ⊎ (result ≡ 6) → IsSomeAnd (form_of (texts words.now.items)) (λ asked. IsFaulted asked (F.files store.old) (Rose (F.failed_loads store.old) (F.failed_loads store.new)) (Rose (K.faults out.old) (K.faults out.new)) (K.written out.old) (K.written out.new) result) }

    // Where no load failed, the status is the one that is due for the held files.
    ensures due { (Rose (F.failed_loads store.old) (F.failed_loads store.new) → ⊥) → IfSome (form_of (texts words.now.items)) (λ asked. IfSome (F.files store.old) (λ held. IsDueStatus (due asked held) result)) }

    // Where nothing failed and an outcome is due, all is done, unless there is no memory.
    ensures complete { (Rose (F.failed_loads store.old) (F.failed_loads store.new) → ⊥) → (Rose (K.faults out.old) (K.faults out.new) → ⊥) → (Rose (F.failed_saves store.old) (F.failed_saves store.new) → ⊥) → IfSome (form_of (texts words.now.items)) (λ asked. IfSome (F.files store.old) (λ held. IsOk (due asked held) → (result ≡ 0) ⊎ (result ≡ 8))) }
    ensures fails_outside { result ≡ 7 → IsSomeAnd (form_of (texts words.now.items)) (λ asked. FailsOutside asked (F.files store.old) (Rose (K.faults out.old) (K.faults out.new)) (Rose (F.failed_saves store.old) (F.failed_saves store.new)) (F.files store.new ≡ F.files store.old) (K.written out.old) (K.written out.new)) }
    ensures runs_out { result ≡ 8 → MatchOption (form_of (texts words.now.items)) (UsageRunsOut (K.written out.old) (K.written out.new)) (λ asked. RunsOut asked (F.files store.old) (Rose (F.failed_loads store.old) (F.failed_loads store.new)) (K.written out.old) (K.written out.new)) }
    ensures unsaved { result ≢ 0 → result ≢ 7 → F.files store.new ≡ F.files store.old }
    ensures others_stay { ChangesOnlySaved (form_of (texts words.now.items)) (F.files store.old) (F.files store.new) }

    // What calls make of the store and of the sink is what several loads and saves, and several writes, make of them: no
    // count falls.
    ensures store_moved { Leads F.moves store.old store.new }
    ensures sink_moved { Leads K.moves out.old out.new }
{
    match command_of(alloc, words) {
        Ok(Some(command)) => obey(alloc, &command, store, out),
        Ok(None) => tell(b"fault usage\n", 1, out),
        Err(_) => end_without_memory(out),
    }
}
