ghost use Rattle.std.specs.Prelude.{◌≡◌, ◌<◌, ◌+◌, true, false, None, Some};
ghost use Rattle.std.specs.Option.{option_map};
ghost use Rattle.std.specs.List.{find};
ghost use Rattle.sync_words.specs.declared.label.Label.TheVariants as say;
ghost use Rattle.cpu_table.specs.Causes.{is_of_visit, cause_of};
ghost use Rattle.rendezvous_machine.specs.Effects.{given};
ghost use Rattle.trace_check.specs.Judged.{setup_of};
ghost use Rattle.trace_check.specs.Kept.{judged_in};
ghost use Rattle.trace_check.specs.Verdicts.{is_over, verdict, heads, serves};
ghost use Rattle.trace_members.specs.Changes.{with_job, with_write, with_run};
ghost use Rattle.trace_check.specs.Afterwards.{opened, with_members, changed_by, MayBeSaid, after_serving, after_heading, after_label, saying, collecting, running, beginning_list};

use crate::kept::Kept;
use crate::session::Session;
use cpu_table::CauseAt;
use handler_ops::Job;
use rendezvous_machine::Phase;
use smm_base::{Cause, Register, Status};
use sync_words::Label;
use trace_members::{
    clear_all, depart, enclose_all, enter, release, resume, run, set_job, set_phase, visits_of,
    write,
};

fn entry_of(causes: &[CauseAt], cpu: u16, visit: u32) -> Option<CauseAt>
    ensures { result ≡ find (is_of_visit cpu visit) causes.now }
{
    causes
        .iter()
        .copied()
        .find(|entry| entry.cpu == cpu && entry.visit == visit)
}

// The cause of a visit: that of the first entry for it, or none. The time is at most proportional to the number of entries.
fn cause_of(causes: &[CauseAt], cpu: u16, visit: u32) -> Cause
    ensures { result ≡ cause_of causes.now cpu visit }
{
    match entry_of(causes, cpu, visit) {
        None => Cause {
            halt: false,
            io: None,
        },
        Some(entry) => entry.cause,
    }
}

// The number of the visit after so many, where more may come.
fn next_visit(visits: u32, limit: u32) -> u32
    requires { visits < limit }
    ensures { result ≡ visits + 1 }
{
    let _ = limit;
    visits + 1
}

fn opened(bsp: u16) -> Session
    ensures { result ≡ opened bsp }
{
    Session {
        bsp,
        served: None,
        gathered: None,
        is_ready: false,
        expired: 0,
        is_closed: false,
        has_begun: false,
        is_done: false,
    }
}

// What is said while serving.
impl Kept {
    fn say(&mut self, label: Label)
        requires { MayBeSaid (judged_in self.old) label }
        ensures { judged_in self.new ≡ saying label (judged_in self.old) }
    {
        self.judge.say(&label);
    }

    // The list grows by the collect, unless it is whole.
    fn collect(&mut self, cpu: u16)
        requires { is_over (judged_in self.old) ≡ false → MayBeSaid (judged_in self.old) (say.Collect cpu) }
        ensures { judged_in self.new ≡ collecting (say.Collect cpu) (with_members (with_job cpu None) (judged_in self.old)) }
    {
        set_job(&mut self.members, cpu, None);
        if !self.judge.is_over() {
            self.judge.say(&Label::Collect(cpu));
        }
    }

    // A processor runs its job. The list grows by that, unless it is whole.
    fn run(&mut self, i: u16, result_value: u64, status: Status)
        ensures { judged_in self.new ≡ running i result_value status (with_members (with_run (setup_of (judged_in self.old)) i (result_value, status)) (judged_in self.old)) }
    {
        run(
            &mut self.members,
            i,
            self.judge.setup(),
            (result_value, status),
        );
        if !self.judge.is_over() {
            self.judge.run(i, result_value, status);
        }
    }

    fn write(&mut self, cpu: u16, register: Register, width: u32, value: u64, status: Status)
        requires { MayBeSaid (judged_in self.old) (say.Write cpu register width value status) }
        ensures { judged_in self.new ≡ saying (say.Write cpu register width value status) (with_members (with_write cpu register width value status) (judged_in self.old)) }
    {
        write(&mut self.members, cpu, register, width, value, status);
        self.judge.say(&Label::Write {
            cpu,
            register,
            width,
            value,
            status,
        });
    }

    fn start(&mut self, cpu: u16, job: u32, procedure: u16, arg: u64)
        requires { MayBeSaid (judged_in self.old) (say.Start cpu job procedure arg) }
        ensures { judged_in self.new ≡ saying (say.Start cpu job procedure arg) (with_members (with_job cpu (Some (given job procedure arg))) (judged_in self.old)) }
    {
        let given = Job {
            number: job,
            procedure,
            arg,
            done: None,
        };
        set_job(&mut self.members, cpu, Some(given));
        self.judge.say(&Label::Start {
            cpu,
            job,
            procedure,
            arg,
        });
    }

    // What a label that is said while serving changes.
    #[tactic(auto, using(crate::proofs::Speaking::serves_says))]
    fn apply_serving(&mut self, i: u16, label: Label)
        requires { serves (judged_in self.old) i label ≡ true }
        ensures { judged_in self.new ≡ after_serving (judged_in self.old) i label }
    {
        match label {
            Label::Write {
                cpu,
                register,
                width,
                value,
                status,
            } => self.write(cpu, register, width, value, status),
            Label::Start {
                cpu,
                job,
                procedure,
                arg,
            } => self.start(cpu, job, procedure, arg),
            Label::Collect(cpu) => self.collect(cpu),
            _ => self.say(label),
        }
    }
}

// What the boot processor says beside that.
impl Kept {
    fn begin(&mut self, bsp: u16, wave: u32)
        ensures { judged_in self.new ≡ beginning_list bsp wave (judged_in self.old) }
    {
        self.judge.begin(bsp, wave);
        self.judge.say(&Label::Begin(wave));
    }

    fn end(&mut self, i: u16)
        ensures { judged_in self.new ≡ after_heading (judged_in self.old) i say.End }
    {
        set_phase(&mut self.members, i, Phase::Gone);
        clear_all(&mut self.members);
        self.session = None;
        self.judge.finish();
    }

    // What a label changes of the session alone.
    fn apply_session(&mut self, label: Label)
        ensures { self.new ≡ record self.old { session = option_map (changed_by label) self.old.session } }
    {
        if let Some(session) = &mut self.session {
            match label {
                Label::Served(wave) => session.served = Some(wave),
                Label::Gather(blocked) => session.gathered = Some(blocked),
                Label::Ready(_) => session.is_ready = true,
                Label::Expire(round) => session.expired = round,
                Label::Close(_) => session.is_closed = true,
                Label::Begin(_) => session.has_begun = true,
                Label::Done => session.is_done = true,
                _ => {}
            }
        }
    }

    // What a label of the boot processor changes.
    fn apply_heading(&mut self, i: u16, label: Label)
        requires { heads (judged_in self.old) i label ≡ true }
        ensures { judged_in self.new ≡ after_heading (judged_in self.old) i label }
    {
        match label {
            Label::Elect => self.session = Some(opened(i)),
            Label::Served(_) => {
                self.source = 0;
                self.apply_session(label);
            }
            Label::Gather(_) | Label::Ready(_) | Label::Expire(_) | Label::Done => {
                self.apply_session(label);
            }
            Label::Close(_) => {
                enclose_all(&mut self.members);
                self.apply_session(label);
            }
            Label::Begin(wave) => {
                self.begin(i, wave);
                self.apply_session(label);
            }
            Label::Release(c) => release(&mut self.members, c),
            Label::End => self.end(i),
            _ => self.apply_serving(i, label),
        }
    }
}

// What the chipset says, and each processor for itself.
impl Kept {
    // One announcement more than waves.
    fn except(&mut self, blocked: u32)
        ensures { judged_in self.new ≡ record (judged_in self.old) { excepted = self.old.waves + 1; last_excepted = blocked } }
    {
        self.excepted = u64::from(self.waves) + 1;
        self.last_excepted = blocked;
    }

    #[tactic(auto, using(crate::proofs::Speaking::enters))]
    fn enter(&mut self, i: u16)
        requires { verdict (judged_in self.old) i say.Enter ≡ true }
        ensures { judged_in self.new ≡ after_label (judged_in self.old) i say.Enter }
    {
        let setup = self.judge.setup();
        let visit = next_visit(visits_of(&self.members, i), setup.visits);
        let cause = cause_of(setup.causes.as_slice(), i, visit);
        enter(&mut self.members, i, visit, &cause);
    }

    /// What a label changes whose rule holds.
    pub fn apply(&mut self, i: u16, label: Label)
        requires { verdict (judged_in self.old) i label ≡ true }
        ensures { judged_in self.new ≡ after_label (judged_in self.old) i label }
    {
        match label {
            Label::Silent => {}
            Label::Excepted(blocked) => self.except(blocked),
            Label::Wave(wave) => {
                self.waves = wave;
                self.source = wave;
            }
            Label::Enter => self.enter(i),
            Label::Turn => set_phase(&mut self.members, i, Phase::Gone),
            Label::Arrive => set_phase(&mut self.members, i, Phase::Counted),
            Label::Late => set_phase(&mut self.members, i, Phase::Gone),
            Label::Quit => set_phase(&mut self.members, i, Phase::Gone),
            Label::Report => set_phase(&mut self.members, i, Phase::Here),
            Label::Run {
                result_value,
                status,
                ..
            } => self.run(i, result_value, status),
            Label::Depart => depart(&mut self.members, i),
            Label::Resume(_) => resume(&mut self.members, i),
            Label::Off => set_phase(&mut self.members, i, Phase::Off),
            _ => self.apply_heading(i, label),
        }
    }
}
