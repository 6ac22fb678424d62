ghost use Rattle.std.specs.Prelude.{◌≡◌, ◌≤◌, true, false, vec_capacity};
ghost use Rattle.sync_words.specs.declared.label.Label.TheVariants as say;
ghost use Rattle.serving_place.specs.declared.saying.Saying.TheVariants.{Known};
ghost use Rattle.serving_place.specs.Forms.{Own};
ghost use Rattle.serving_place.specs.Places.{next};
ghost use Rattle.serving_place.specs.Due.{due};
ghost use Rattle.handler_ops.specs.Course.{done_job, is_held, label_of, moved, Takes};
ghost use Rattle.serving_place.specs.Progresses.{program_in, place_in, setting_in};
ghost use Rattle.handler_ops.specs.Sessions.{course_in};
ghost use Rattle.handler_ops.specs.Told.{step_as, read_at_hand, write_at_hand};
ghost use Rattle.handler_ops.specs.Answering.{taken_off, written, kept_as, ran_by, IsAtHand, RowFits};
ghost use Rattle.serving_place.specs.Sayings.{Fits, label_in, operation_due, said_as};

use crate::desk::Job;
use crate::held::Desks;
use crate::row::Row;
use crate::telling::{read_label, write_label};
use serving_place::{Progress, Request};
use sync_words::Label;

fn write_at_hand(desks: &mut Desks, cpu: u16, reg: u32, width: u8, value: u64) -> Label
    requires { is_held desks.old cpu ≡ true }
    ensures label { result ≡ write_at_hand cpu reg width value desks.old }
    ensures desks { desks.new ≡ written cpu reg width value desks.old }
{
    let status = desks.write(cpu, reg, width, value);
    write_label(cpu, reg, width, value, status)
}

fn read_at_hand(progress: &Progress, desks: &Desks, cpu: u16, reg: u32, width: u8) -> Label
    requires { is_held desks.now cpu ≡ true }
    ensures { result ≡ read_at_hand (setting_in progress.now) cpu reg width desks.now }
{
    let (value, status) = desks.read(cpu, progress.id_of(cpu), reg, width);
    read_label(cpu, reg, width, value, status)
}

// Nothing is said. The word of a processor that is given a job was put, or not.
fn pause(progress: &mut Progress, marked: bool, label: &mut Label)
    ensures said { label.new ≡ say.Silent }
    ensures stays { progress.new ≡ record progress.old { marked = marked } }
{
    progress.marked = marked;
    *label = Label::Silent;
}

// The label is said, or that of a request.
fn speak(progress: &mut Progress, request: &Request, label: &mut Label)
    requires room { 4 ≤ vec_capacity progress.old.walks }
    requires fits { Fits (said_as request.now label.old) (operation_due (due (program_in progress.old) (place_in progress.old))) progress.old.state }
    ensures said { label.new ≡ label_in progress.old.state.pool (said_as request.now label.old) }
    ensures course { course_in progress.new ≡ record { place = next (program_in progress.old) (place_in progress.old) (Own (label_in progress.old.state.pool (said_as request.now label.old))); marked = false } }
    ensures stays { progress.new ≡ record progress.old { entry = progress.new.entry; walks = progress.new.walks; pending = progress.new.pending; marked = progress.new.marked; state = progress.new.state } }
    ensures room { vec_capacity progress.new.walks ≡ vec_capacity progress.old.walks }
{
    progress.say_on(request, label);
    progress.marked = false;
}

// The label that a row has is said.
fn speak_known(progress: &mut Progress, known: &Label, label: &mut Label)
    requires room { 4 ≤ vec_capacity progress.old.walks }
    requires fits { Fits (Known known.now) (operation_due (due (program_in progress.old) (place_in progress.old))) progress.old.state }
    ensures said { label.new ≡ known.now }
    ensures course { course_in progress.new ≡ record { place = next (program_in progress.old) (place_in progress.old) (Own known.now); marked = false } }
    ensures stays { progress.new ≡ record progress.old { entry = progress.new.entry; walks = progress.new.walks; pending = progress.new.pending; marked = progress.new.marked; state = progress.new.state } }
    ensures room { vec_capacity progress.new.walks ≡ vec_capacity progress.old.walks }
{
    *label = *known;
    speak(progress, &Request::Nothing, label);
}

// The processor of a job ran it, if it is done.
fn run(progress: &mut Progress, cpu: u16, job: Option<Job>)
    ensures place { place_in progress.new ≡ ran_by cpu (done_job job) (place_in progress.old) }
    ensures stays { progress.new ≡ record progress.old { state = progress.new.state } }
{
    match job {
        None => {}
        Some(job) => match job.done {
            None => {}
            Some((result, status)) => progress.state.run(cpu, result, status),
        },
    }
}

// The job of a processor is collected, and taken off its desk.
#[tactic(auto, using(crate::proofs::Answered::done_is, crate::proofs::Answered::takes_is, crate::proofs::Answered::collect_fits))]
#[inline(never)]
fn collect(progress: &mut Progress, cpu: u16, desks: &mut Desks, label: &mut Label)
    requires room { 4 ≤ vec_capacity progress.old.walks }
    ensures said { label.new ≡ say.Collect cpu }
    ensures course { course_in progress.new ≡ moved (setting_in progress.old) (course_in progress.old) (Takes cpu) desks.old }
    ensures desks { desks.new ≡ taken_off cpu desks.old }
    ensures stays { progress.new ≡ record progress.old { entry = progress.new.entry; walks = progress.new.walks; pending = progress.new.pending; marked = progress.new.marked; state = progress.new.state } }
    ensures room { vec_capacity progress.new.walks ≡ vec_capacity progress.old.walks }
{
    let job = desks.take_job(cpu);
    run(progress, cpu, job);
    *label = Label::Collect(cpu);
    speak(progress, &Request::Nothing, label);
}

// The label by what the access of a need found. A write changes the image at hand, and the job of a desk that came
// is taken off it.
#[tactic(auto, using(crate::proofs::Answered::read_fits, crate::proofs::Answered::write_fits))]
pub fn answer(progress: &mut Progress, told: &Row, found: u32, desks: &mut Desks, label: &mut Label)
    requires room { 4 ≤ vec_capacity progress.old.walks }
    requires fits { RowFits told.now (operation_due (due (program_in progress.old) (place_in progress.old))) progress.old.state }
    requires at_hand { IsAtHand told.now desks.old }
    ensures said { label.new ≡ label_of ((step_as (setting_in progress.old) progress.old.state told.now).on found desks.old) }
    ensures course { course_in progress.new ≡ moved (setting_in progress.old) (course_in progress.old) ((step_as (setting_in progress.old) progress.old.state told.now).on found desks.old) desks.old }
    ensures desks { desks.new ≡ kept_as told.now found desks.old }
    ensures stays { progress.new ≡ record progress.old { entry = progress.new.entry; walks = progress.new.walks; pending = progress.new.pending; marked = progress.new.marked; state = progress.new.state } }
    ensures room { vec_capacity progress.new.walks ≡ vec_capacity progress.old.walks }
{
    match told {
        Row::Finished => pause(progress, false, label),
        Row::Looking(known) => speak_known(progress, known, label),
        Row::ClaimingDesk(_, known) => {
            if found == 1 {
                pause(progress, false, label);
            } else {
                speak_known(progress, known, label);
            }
        }
        Row::ClaimingJob(cpu, known) => {
            if found == 2 {
                collect(progress, *cpu, desks, label);
            } else {
                speak_known(progress, known, label);
            }
        }
        Row::AwaitingJob(cpu) => collect(progress, *cpu, desks, label),
        Row::Putting(_) => pause(progress, true, label),
        Row::Raising(_, known) => speak_known(progress, known, label),
        Row::Reading { cpu, reg, width } => {
            *label = read_at_hand(progress, desks, *cpu, *reg, *width);
            speak(progress, &Request::Nothing, label);
        }
        Row::Writing {
            cpu,
            reg,
            width,
            value,
        } => {
            *label = write_at_hand(desks, *cpu, *reg, *width, *value);
            speak(progress, &Request::Nothing, label);
        }
        Row::Allocating(size) => speak(progress, &Request::Allocation(*size), label),
        Row::Freeing(place) => speak(progress, &Request::Release(*place), label),
    }
}
