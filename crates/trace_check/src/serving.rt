ghost use Rattle.std.specs.Prelude.{◌≡◌, ◌<◌, ◌&&◌, ◌||◌, Some, length};
ghost use Rattle.smm_base.specs.Register.{register_number};
ghost use Rattle.handler_ops.specs.Course.{read_of, write_of};
ghost use Rattle.rendezvous_machine.specs.Refusals.{or_else};
ghost use Rattle.rendezvous_machine.specs.Services.{setting};
ghost use Rattle.sync_words.specs.declared.label.Label.TheVariants as say;
ghost use Rattle.serving_judge.specs.Words.{is_status};
ghost use Rattle.trace_check.specs.Judged.{setup_of, member};
ghost use Rattle.trace_check.specs.Kept.{judged_in};
ghost use Rattle.trace_members.specs.Members.{is_least, shows_read, reads, writes};
ghost use Rattle.trace_check.specs.Verdicts.{can_say, leads, cause_later, refusal_by, refusal_in, is_cause, is_served, serves};

use crate::heading::has_list;
use crate::kept::Kept;
use crate::session::Session;
use serving_judge::{StartDue, is_status};
use smm_base::{Register, Status};
use sync_words::{Label, StartRefusal};
use trace_members::{
    is_finished, is_here, is_least, is_open, job_of, phase_of, shows_read, write_status,
};

fn cause_later(is_launch: bool, is_open: bool, is_here: bool) -> Option<StartRefusal>
    ensures { result ≡ cause_later is_launch is_open is_here }
{
    if is_launch && is_open {
        Some(StartRefusal::Busy)
    } else if is_here {
        None
    } else {
        Some(StartRefusal::Absent)
    }
}

fn or_else(first: Option<StartRefusal>, later: Option<StartRefusal>) -> Option<StartRefusal>
    ensures { result ≡ or_else first later }
{
    match first {
        None => later,
        Some(cause) => Some(cause),
    }
}

fn is_cause(found: Option<StartRefusal>, cause: StartRefusal) -> bool
    ensures { result ≡ is_cause found cause }
{
    match (found, cause) {
        (Some(StartRefusal::OutOfRange), StartRefusal::OutOfRange) => true,
        (Some(StartRefusal::BootProcessor), StartRefusal::BootProcessor) => true,
        (Some(StartRefusal::UnknownProcedure), StartRefusal::UnknownProcedure) => true,
        (Some(StartRefusal::Tokens), StartRefusal::Tokens) => true,
        (Some(StartRefusal::Busy), StartRefusal::Busy) => true,
        (Some(StartRefusal::Absent), StartRefusal::Absent) => true,
        _ => false,
    }
}

impl Kept {
    fn can_say(&self, label: &Label, session: Session) -> bool
        ensures { result ≡ can_say (judged_in self.now) label.now session }
    {
        has_list(session) && self.judge.accepts(label)
    }

    // The actor is the boot processor, and its serving list may go on with the label.
    fn goes_on(&self, i: u16, label: &Label) -> bool
        ensures { result ≡ leads (judged_in self.now) i (can_say (judged_in self.now) label.now) }
    {
        match self.session {
            None => false,
            Some(session) => session.bsp == i && self.can_say(label, session),
        }
    }

    fn refusal_by(&self, start: StartDue) -> Option<StartRefusal>
        ensures { result ≡ refusal_by (judged_in self.now) (Some start) }
    {
        let later = cause_later(
            start.is_launch,
            is_open(job_of(&self.members, start.cpu)),
            is_here(phase_of(&self.members, start.cpu)),
        );
        or_else(start.cause, later)
    }

    // Why the job that is due isn't given.
    fn refusal(&self) -> Option<StartRefusal>
        ensures { result ≡ refusal_in (judged_in self.now) }
    {
        match self.judge.start_due() {
            None => None,
            Some(start) => self.refusal_by(start),
        }
    }

    fn may_refuse(&self, i: u16, cpu: u16, cause: StartRefusal) -> bool
        ensures { result ≡ serves (judged_in self.now) i (say.Refuse cpu cause) }
    {
        self.goes_on(i, &Label::Refuse { cpu, cause }) && is_cause(self.refusal(), cause)
    }

    fn may_start(&self, i: u16, cpu: u16, job: u32, procedure: u16, arg: u64) -> bool
        ensures { result ≡ serves (judged_in self.now) i (say.Start cpu job procedure arg) }
    {
        let label = Label::Start {
            cpu,
            job,
            procedure,
            arg,
        };
        self.goes_on(i, &label) && self.refusal().is_none() && job_of(&self.members, cpu).is_none()
    }

    fn may_collect_in(&self, cpu: u16, session: Session) -> bool
        ensures { result ≡ (can_say (judged_in self.now) (say.Collect cpu) session
            || (is_served (judged_in self.now) session && is_least self.now.members.items cpu)) }
    {
        self.can_say(&Label::Collect(cpu), session)
            || (self.is_served(session) && is_least(&self.members, cpu))
    }

    fn may_collect(&self, i: u16, cpu: u16) -> bool
        ensures { result ≡ serves (judged_in self.now) i (say.Collect cpu) }
    {
        match self.session {
            None => false,
            Some(session) => {
                session.bsp == i
                    && self.may_collect_in(cpu, session)
                    && is_finished(job_of(&self.members, cpu))
            }
        }
    }
}

// Reads and writes of saved registers.
impl Kept {
    // What a read shows of an image that is at hand or not.
    fn shows_read(
        &self,
        cpu: u16,
        present: bool,
        register: Register,
        bytes: u8,
        value: u64,
        status: Status,
    ) -> bool
        requires { cpu < length self.now.members.items }
        ensures { result ≡ shows_read (read_of (setting (setup_of (judged_in self.now)) 0) present (member (judged_in self.now) cpu).image cpu (register_number register) bytes) value status }
    {
        let id = self.judge.id_of(cpu);
        shows_read(
            self.members[usize::from(cpu)].image(),
            present,
            id,
            register,
            bytes,
            value,
            status,
        )
    }

    fn reads(
        &self,
        bsp: u16,
        cpu: u16,
        register: Register,
        bytes: u8,
        value: u64,
        status: Status,
    ) -> bool
        requires { length self.now.members.items ≡ (setup_of (judged_in self.now)).processors }
        ensures { result ≡ reads (setup_of (judged_in self.now)) self.now.members.items bsp cpu register bytes value status }
    {
        if cpu >= self.judge.setup().processors {
            return value == 0 && is_status(Status::InvalidParameter, status);
        }
        if cpu == bsp {
            return self.shows_read(cpu, true, register, bytes, value, status);
        }
        match job_of(&self.members, cpu) {
            None => {
                let present = is_here(phase_of(&self.members, cpu));
                self.shows_read(cpu, present, register, bytes, value, status)
            }
            Some(job) => { job.done.is_none() && value == 0 && is_status(Status::NotReady, status) }
        }
    }

    #[tactic(auto, using(crate::proofs::Speaking::read_bytes))]
    fn may_read(
        &self,
        i: u16,
        cpu: u16,
        register: Register,
        width: u32,
        value: u64,
        status: Status,
    ) -> bool
        requires { length self.now.members.items ≡ (setup_of (judged_in self.now)).processors }
        ensures { result ≡ serves (judged_in self.now) i (say.Read cpu register width value status) }
    {
        let label = Label::Read {
            cpu,
            register,
            width,
            value,
            status,
        };
        if !self.goes_on(i, &label) {
            return false;
        }
        match self.judge.read_width() {
            None => false,
            Some(bytes) => self.reads(i, cpu, register, bytes, value, status),
        }
    }

    fn shows_write(
        &self,
        cpu: u16,
        present: bool,
        register: Register,
        width: u32,
        value: u64,
        status: Status,
    ) -> bool
        requires { cpu < length self.now.members.items }
        ensures { result ≡ is_status (write_of present (member (judged_in self.now) cpu).image (register_number register) width value).status status }
    {
        let expected = write_status(
            self.members[usize::from(cpu)].image(),
            present,
            register,
            width,
            value,
        );
        is_status(expected, status)
    }

    fn writes(
        &self,
        bsp: u16,
        cpu: u16,
        register: Register,
        width: u32,
        value: u64,
        status: Status,
    ) -> bool
        requires { length self.now.members.items ≡ (setup_of (judged_in self.now)).processors }
        ensures { result ≡ writes (setup_of (judged_in self.now)) self.now.members.items bsp cpu register width value status }
    {
        if cpu >= self.judge.setup().processors {
            return is_status(Status::InvalidParameter, status);
        }
        if cpu == bsp {
            return self.shows_write(cpu, true, register, width, value, status);
        }
        match job_of(&self.members, cpu) {
            None => {
                let present = is_here(phase_of(&self.members, cpu));
                self.shows_write(cpu, present, register, width, value, status)
            }
            Some(job) => job.done.is_none() && is_status(Status::NotReady, status),
        }
    }

    fn may_write(
        &self,
        i: u16,
        cpu: u16,
        register: Register,
        width: u32,
        value: u64,
        status: Status,
    ) -> bool
        requires { length self.now.members.items ≡ (setup_of (judged_in self.now)).processors }
        ensures { result ≡ serves (judged_in self.now) i (say.Write cpu register width value status) }
    {
        let label = Label::Write {
            cpu,
            register,
            width,
            value,
            status,
        };
        self.goes_on(i, &label) && self.writes(i, cpu, register, width, value, status)
    }

    /// The rule holds of what a boot processor says while serving.
    pub fn serves(&self, i: u16, label: Label) -> bool
        requires { length self.now.members.items ≡ (setup_of (judged_in self.now)).processors }
        ensures { result ≡ serves (judged_in self.now) i label }
    {
        match label {
            Label::Read {
                cpu,
                register,
                width,
                value,
                status,
            } => self.may_read(i, cpu, register, width, value, status),
            Label::Write {
                cpu,
                register,
                width,
                value,
                status,
            } => self.may_write(i, cpu, register, width, value, status),
            Label::Refuse { cpu, cause } => self.may_refuse(i, cpu, cause),
            Label::Start {
                cpu,
                job,
                procedure,
                arg,
            } => self.may_start(i, cpu, job, procedure, arg),
            Label::Collect(cpu) => self.may_collect(i, cpu),
            _ => self.goes_on(i, &label),
        }
    }
}
