ghost use Rattle.std.specs.Prelude.{length, ◌≡◌, ◌+◌};
ghost use Rattle.sync_words.specs.declared.label.Label.TheVariants as say;
ghost use Rattle.trace_check.specs.Judged.{setup_of};
ghost use Rattle.trace_check.specs.Kept.{judged_in};
ghost use Rattle.trace_check.specs.Verdicts.{are_enough, are_too_few, is_wave, is_traditional, has_list, is_over, is_served, may_close, may_begin, heads, leads};

use crate::kept::Kept;
use crate::ruling::may_lead;
use crate::session::Session;
use cpu_table::Mode;
use sync_words::Label;
use trace_members::{
    all_collected, all_departed, all_reported, count_of, is_enclosed, is_released, is_waiting,
    phase_of,
};

fn are_enough(gathered: Option<u32>, members: u32, processors: u16) -> bool
    ensures { result ≡ are_enough gathered members processors }
{
    match gathered {
        None => false,
        Some(blocked) => u64::from(processors) <= u64::from(members) + u64::from(blocked),
    }
}

#[tactic(auto, using(crate::proofs::Counting::fewer_than))]
fn are_too_few(gathered: Option<u32>, members: usize, processors: u16) -> bool
    ensures { result ≡ are_too_few gathered members processors }
{
    match gathered {
        None => false,
        Some(blocked) => members < usize::from(processors).saturating_sub(blocked as usize),
    }
}

fn is_wave(served: Option<u32>, wave: u32) -> bool
    ensures { result ≡ is_wave served wave }
{
    match served {
        None => false,
        Some(served) => served == wave,
    }
}

fn is_traditional(mode: Mode) -> bool
    ensures { result ≡ is_traditional mode }
{
    matches!(mode, Mode::Traditional)
}

/// The serving list of the session has begun.
pub fn has_list(session: Session) -> bool
    ensures { result ≡ has_list session }
{
    session.served.is_some() && session.has_begun
}

impl Kept {
    /// The serving list is whole.
    pub fn is_served(&self, session: Session) -> bool
        ensures { result ≡ is_served (judged_in self.now) session }
    {
        has_list(session) && self.judge.is_over()
    }

    fn may_close_in(&self, mode: Mode, session: Session) -> bool
        ensures { result ≡ may_close (judged_in self.now) mode session }
    {
        match mode {
            Mode::Traditional => session.is_ready || session.expired == 2,
            Mode::Relaxed => self.is_served(session) && all_collected(&self.members),
        }
    }

    fn may_begin_in(&self, mode: Mode, session: Session) -> bool
        ensures { result ≡ may_begin (judged_in self.now) mode session }
    {
        match mode {
            Mode::Traditional => session.is_closed && all_reported(&self.members, session.bsp),
            Mode::Relaxed => !session.is_closed,
        }
    }
}

// What the boot processor says beside what it says while serving.
impl Kept {
    fn may_elect(&self, i: u16) -> bool
        ensures { result ≡ heads (judged_in self.now) i say.Elect }
    {
        is_waiting(phase_of(&self.members, i))
            && self.session.is_none()
            && may_lead(self.judge.setup().policy, i)
    }

    fn may_serve(&self, i: u16, wave: u32) -> bool
        ensures { result ≡ heads (judged_in self.now) i (say.Served wave) }
    {
        match self.session {
            None => false,
            Some(session) => session.bsp == i && session.served.is_none() && wave == self.source,
        }
    }

    fn may_gather(&self, i: u16, blocked: u32) -> bool
        ensures { result ≡ heads (judged_in self.now) i (say.Gather blocked) }
    {
        match self.session {
            None => false,
            Some(session) => {
                session.bsp == i
                    && session.served.is_some()
                    && session.gathered.is_none()
                    && blocked == self.last_excepted
                    && is_traditional(self.judge.setup().mode)
            }
        }
    }

    fn may_be_ready(&self, i: u16, members: u32) -> bool
        ensures { result ≡ heads (judged_in self.now) i (say.Ready members) }
    {
        match self.session {
            None => false,
            Some(session) => {
                session.bsp == i
                    && !session.is_ready
                    && session.expired <= 1
                    && are_enough(session.gathered, members, self.judge.setup().processors)
                    && members as usize == count_of(&self.members)
            }
        }
    }

    fn may_expire(&self, i: u16, round: u32) -> bool
        ensures { result ≡ heads (judged_in self.now) i (say.Expire round) }
    {
        match self.session {
            None => false,
            Some(session) => {
                session.bsp == i
                    && !session.is_ready
                    && u64::from(session.expired) + 1 == u64::from(round)
                    && round <= 2
                    && are_too_few(
                        session.gathered,
                        count_of(&self.members),
                        self.judge.setup().processors,
                    )
            }
        }
    }

    fn may_close(&self, i: u16, members: u32) -> bool
        ensures { result ≡ heads (judged_in self.now) i (say.Close members) }
    {
        match self.session {
            None => false,
            Some(session) => {
                session.bsp == i
                    && !session.is_closed
                    && self.may_close_in(self.judge.setup().mode, session)
                    && members as usize == count_of(&self.members)
            }
        }
    }

    fn may_begin(&self, i: u16, wave: u32) -> bool
        ensures { result ≡ heads (judged_in self.now) i (say.Begin wave) }
    {
        match self.session {
            None => false,
            Some(session) => {
                session.bsp == i
                    && is_wave(session.served, wave)
                    && !session.has_begun
                    && self.may_begin_in(self.judge.setup().mode, session)
            }
        }
    }

    fn may_be_done(&self, i: u16) -> bool
        ensures { result ≡ heads (judged_in self.now) i say.Done }
    {
        match self.session {
            None => false,
            Some(session) => {
                session.bsp == i
                    && !session.is_done
                    && self.is_served(session)
                    && session.is_closed
                    && all_reported(&self.members, i)
                    && all_collected(&self.members)
            }
        }
    }

    fn may_release(&self, i: u16, c: u16) -> bool
        ensures { result ≡ heads (judged_in self.now) i (say.Release c) }
    {
        self.is_done_by(i)
            && c != i
            && is_enclosed(&self.members, c)
            && !is_released(&self.members, c)
    }

    fn is_done_by(&self, i: u16) -> bool
        ensures { result ≡ leads (judged_in self.now) i (λ s. s.is_done) }
    {
        match self.session {
            None => false,
            Some(session) => session.bsp == i && session.is_done,
        }
    }

    fn may_end(&self, i: u16) -> bool
        ensures { result ≡ heads (judged_in self.now) i say.End }
    {
        self.is_done_by(i) && all_departed(&self.members, i)
    }

    /// The rule holds of what a boot processor says.
    pub fn heads(&self, i: u16, label: Label) -> bool
        requires { length self.now.members.items ≡ (setup_of (judged_in self.now)).processors }
        ensures { result ≡ heads (judged_in self.now) i label }
    {
        match label {
            Label::Elect => self.may_elect(i),
            Label::Served(wave) => self.may_serve(i, wave),
            Label::Gather(blocked) => self.may_gather(i, blocked),
            Label::Ready(members) => self.may_be_ready(i, members),
            Label::Expire(round) => self.may_expire(i, round),
            Label::Close(members) => self.may_close(i, members),
            Label::Begin(wave) => self.may_begin(i, wave),
            Label::Done => self.may_be_done(i),
            Label::Release(c) => self.may_release(i, c),
            Label::End => self.may_end(i),
            _ => self.serves(i, label),
        }
    }
}
