ghost use Rattle.std.specs.Prelude.{length, ◌≡◌, ◌+◌, ◌==◌, not};
ghost use Rattle.std.specs.List.{count_by};
ghost use Rattle.cpu_table.specs.Waves.{is_blocked, blocked_in};
ghost use Rattle.sync_words.specs.declared.label.Label.TheVariants as say;
ghost use Rattle.trace_check.specs.Judged.{member, setup_of};
ghost use Rattle.trace_check.specs.Kept.{judged_in};
ghost use Rattle.trace_members.specs.Members.{is_after, each_other, is_let, answers};
ghost use Rattle.trace_check.specs.Verdicts.{in_session, is_led, is_closed, is_at_work, announces, may_lead, verdict};

use crate::kept::Kept;
use cpu_regs::After;
use cpu_table::{Arrival, Wave};
use smm_base::{Policy, Status};
use sync_words::Label;
use trace_members::{
    after_of, all_released, answers, is_gone, is_here, is_in, is_out, is_released, is_waiting,
    job_of, phase_of, visits_of,
};

fn is_after(expected: After, after: After) -> bool
    ensures { result ≡ is_after expected after }
{
    match (expected, after) {
        (After::Halt, After::Halt) => true,
        (After::Next, After::Next) => true,
        (After::Retry, After::Retry) => true,
        _ => false,
    }
}

fn is_blocked(arrival: Arrival) -> bool
    ensures { result ≡ is_blocked arrival }
{
    matches!(arrival, Arrival::Blocked)
}

fn count_blocked(arrivals: &[Arrival]) -> usize
    ensures { result ≡ count_by is_blocked arrivals.now }
{
    arrivals
        .iter()
        .filter(|arrival| is_blocked(**arrival))
        .count()
}

// How many processors the wave after so many blocks.
#[tactic(auto, using(crate::proofs::Counting::next_blocked))]
fn blocked_next(waves: &[Wave], before: u32) -> usize
    ensures { result ≡ blocked_in waves.now (before + 1) }
{
    match waves.get(before as usize) {
        None => 0,
        Some(wave) => count_blocked(wave.status.as_slice()),
    }
}

pub fn may_lead(policy: Policy, i: u16) -> bool
    ensures { result ≡ may_lead policy i }
{
    match policy {
        Policy::Elected => true,
        Policy::Fixed(bsp) => i == bsp,
    }
}

// The session.
impl Kept {
    fn is_led(&self, i: u16) -> bool
        ensures { result ≡ is_led (judged_in self.now) i }
    {
        match self.session {
            None => false,
            Some(session) => session.bsp == i,
        }
    }

    fn is_closed(&self) -> bool
        ensures { result ≡ is_closed (judged_in self.now) }
    {
        match self.session {
            None => false,
            Some(session) => session.is_closed,
        }
    }

    fn is_at_work(&self) -> bool
        ensures { result ≡ is_at_work (judged_in self.now) }
    {
        match self.session {
            None => false,
            Some(session) => session.served.is_some() && !session.is_done,
        }
    }
}

// What the chipset says, and each processor for itself.
impl Kept {
    fn announces(&self, i: u16) -> bool
        ensures { result ≡ announces (judged_in self.now) i }
    {
        let setup = self.judge.setup();
        i == setup.processors && (self.waves as usize) < setup.waves.as_slice().len()
    }

    fn may_except(&self, i: u16, blocked: u32) -> bool
        ensures { result ≡ verdict (judged_in self.now) i (say.Excepted blocked) }
    {
        self.announces(i)
            && self.excepted == u64::from(self.waves)
            && blocked as usize == blocked_next(self.judge.setup().waves.as_slice(), self.waves)
    }

    fn may_raise(&self, i: u16, wave: u32) -> bool
        ensures { result ≡ verdict (judged_in self.now) i (say.Wave wave) }
    {
        self.announces(i)
            && self.excepted == u64::from(self.waves) + 1
            && u64::from(wave) == u64::from(self.waves) + 1
    }

    fn may_enter(&self, i: u16) -> bool
        ensures { result ≡ verdict (judged_in self.now) i say.Enter }
    {
        is_out(phase_of(&self.members, i))
            && visits_of(&self.members, i) < self.judge.setup().visits
            && 0 < self.waves
    }

    fn may_turn(&self, i: u16) -> bool
        ensures { result ≡ verdict (judged_in self.now) i say.Turn }
    {
        is_in(phase_of(&self.members, i)) && !self.is_at_work()
    }

    fn may_arrive(&self, i: u16) -> bool
        ensures { result ≡ verdict (judged_in self.now) i say.Arrive }
    {
        is_in(phase_of(&self.members, i)) && !self.is_closed()
    }

    fn may_be_late(&self, i: u16) -> bool
        ensures { result ≡ verdict (judged_in self.now) i say.Late }
    {
        is_in(phase_of(&self.members, i)) && self.is_closed()
    }

    fn may_quit(&self, i: u16) -> bool
        ensures { result ≡ verdict (judged_in self.now) i say.Quit }
    {
        is_waiting(phase_of(&self.members, i)) && !self.is_led(i) && !self.is_closed()
    }

    fn may_report(&self, i: u16) -> bool
        ensures { result ≡ verdict (judged_in self.now) i say.Report }
    {
        is_waiting(phase_of(&self.members, i)) && self.is_led_by_other(i)
    }

    fn is_led_by_other(&self, i: u16) -> bool
        ensures { result ≡ in_session self.now.session (λ s. not (s.bsp == i)) }
    {
        match self.session {
            None => false,
            Some(session) => session.bsp != i,
        }
    }

    fn may_run(&self, i: u16, job: u32, result_value: u64, status: Status) -> bool
        ensures { result ≡ verdict (judged_in self.now) i (say.Run job result_value status) }
    {
        is_here(phase_of(&self.members, i)) && self.answers(i, job, result_value, status)
    }

    fn answers(&self, i: u16, job: u32, result_value: u64, status: Status) -> bool
        ensures { result ≡ answers (setup_of (judged_in self.now)).procedures (member (judged_in self.now) i) job result_value status }
    {
        match self.members.get(usize::from(i)) {
            None => false,
            Some(member) => answers(
                self.judge.setup(),
                member.image(),
                member.job(),
                job,
                result_value,
                status,
            ),
        }
    }

    fn may_depart(&self, i: u16) -> bool
        ensures { result ≡ verdict (judged_in self.now) i say.Depart }
    {
        is_here(phase_of(&self.members, i)) && self.are_released() && is_released(&self.members, i)
    }

    fn are_released(&self) -> bool
        ensures { result ≡ in_session self.now.session (λ s. each_other self.now.members.items s.bsp is_let) }
    {
        match self.session {
            None => false,
            Some(session) => all_released(&self.members, session.bsp),
        }
    }

    fn may_resume(&self, i: u16, how: After) -> bool
        ensures { result ≡ verdict (judged_in self.now) i (say.Resume how) }
    {
        match self.members.get(usize::from(i)) {
            None => false,
            Some(member) => is_gone(member.phase()) && is_after(how, after_of(member.image())),
        }
    }

    fn may_be_off(&self, i: u16) -> bool
        ensures { result ≡ verdict (judged_in self.now) i say.Off }
    {
        let setup = self.judge.setup();
        is_out(phase_of(&self.members, i))
            && (self.waves as usize == setup.waves.as_slice().len()
                || visits_of(&self.members, i) == setup.visits)
    }

    /// The rule of the label holds.
    pub fn holds(&self, i: u16, label: Label) -> bool
        requires { length self.now.members.items ≡ (setup_of (judged_in self.now)).processors }
        ensures { result ≡ verdict (judged_in self.now) i label }
    {
        match label {
            Label::Silent => true,
            Label::Excepted(blocked) => self.may_except(i, blocked),
            Label::Wave(wave) => self.may_raise(i, wave),
            Label::Enter => self.may_enter(i),
            Label::Turn => self.may_turn(i),
            Label::Arrive => self.may_arrive(i),
            Label::Late => self.may_be_late(i),
            Label::Quit => self.may_quit(i),
            Label::Report => self.may_report(i),
            Label::Run {
                job,
                result_value,
                status,
            } => self.may_run(i, job, result_value, status),
            Label::Depart => self.may_depart(i),
            Label::Resume(how) => self.may_resume(i, how),
            Label::Off => self.may_be_off(i),
            _ => self.heads(i, label),
        }
    }
}
