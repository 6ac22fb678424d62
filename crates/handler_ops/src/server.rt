ghost use Rattle.std.specs.Prelude.{◌≡◌, ◌<◌, IfOk};
ghost use Rattle.cpu_table.specs.Data.{data_of};
ghost use Rattle.serving_place.specs.Serving.{seat};
ghost use Rattle.handler_ops.specs.Answering.{is_at_hand, told_on, HasTold, IsAtHand, move_as, answered, kept_as};
ghost use Rattle.handler_ops.specs.Course.{need_of, label_of};
ghost use Rattle.handler_ops.specs.Sessions.{first_session, begun_session, setting_of, job_number};
ghost use Rattle.handler_ops.specs.Told.{need_as, handed_as, given_job};

use crate::answering::answer;
use crate::desk::Job;
use crate::held::{Desks, Held};
use crate::need::Need;
use crate::row::Row;
use crate::telling::row_of;
use cpu_table::Setup;
use serving_place::{
    MOST_LEVELS, Pending, Progress, Seat, State, Tokens, free_seats, pool_of_platform, registered,
};
use smm_base::NoMemory;
use std::alloc::Global;
use std::marker::Model;
use sync_words::Label;

/// What a boot processor serves with: the handlers that are registered, the pool, and where serving stands. It tells the
/// next access, and from the number that the access found the label of its event.
#[derive(Drop)]
pub struct Server {
    progress: Box<Progress>,
    told: Row,
}

impl Model for Server {
    ghost use Rattle.handler_ops.specs.Sessions.{Session};

    ghost Value = { Session };

    ghost use Rattle.handler_ops.specs.Sessions.{session_in};
    ghost use Rattle.serving_place.specs.Progresses.{IsGoing};

    ghost view = { λ s. session_in s.progress.value s.told };

    ghost invariant = { λ s. IsGoing s.progress.value };
}

impl Server {
    /// The server of a platform, with the handlers of its file registered in their order and the pool of its layout. It
    /// takes all memory that it will use. Before the first `begin` it has nothing to serve.
    pub fn new(alloc: Global, setup: &Setup) -> Result<Server, NoMemory>
        ensures { IfOk result (λ server. server ≡ first_session (data_of setup.now)) }
    {
        let registrations = registered(alloc, setup.handlers.as_slice())?;
        let pool = pool_of_platform(alloc, setup)?;
        let seats = free_seats(alloc, usize::from(setup.processors))?;
        let tokens = Tokens::new(alloc)?;
        let walks = Vec::with_capacity(alloc, MOST_LEVELS)?;
        let setup = setup.copy()?;
        let units = setup.ops;
        let progress = Progress {
            setup,
            me: 0,
            wave: 0,
            entry: 0,
            walks,
            pending: Pending::Nothing,
            marked: false,
            state: State::new(registrations, pool, seats, tokens, units),
        };
        Ok(Server {
            progress: Box::new(alloc, progress)?,
            told: Row::Finished,
        })
    }

    /// A session begins whose boot processor is `me` and whose wave is `wave`; 0, and a number above that of the waves, is
    /// no wave, and has no walks. The variables are 0, there are no jobs and no tokens, and no unit was begun.
    pub fn begin(&mut self, me: u16, wave: u32)
        requires { me < self.old.setup.processors }
        ensures { self.new ≡ begun_session me wave self.old }
    {
        self.progress.me = me;
        self.progress.wave = wave;
        self.progress.entry = 0;
        self.progress.walks.clear();
        self.progress.pending = Pending::First(wave);
        self.progress.marked = false;
        let units = self.progress.setup.ops;
        self.progress.state.begin(units);
        self.told = Row::Finished;
    }

    /// The next access, or `Finished` where serving is over. Where a processor is given a job, its desk has it then. It is
    /// called after `begin`, and again once the need before, other than `Finished`, was answered.
    pub fn next(&mut self, held: &mut Held) -> Need
        ensures need { result ≡ need_of (setting_of self.old) held.old.desks self.old.course }
        ensures told { result ≡ need_as self.new.told }
        ensures row { self.new ≡ told_on held.old.desks self.old }
        ensures handed { held.new.desks ≡ handed_as self.new.told held.old.desks }
    {
        row_of(&self.progress, &held.desks, &mut self.told);
        give_by(&self.told, &mut held.desks);
        need_of(&self.told)
    }

    /// What was found by the access that `next` or `need` asked for: the number that the word held, and the desks that are
    /// held after the access. It gives the event's label, `Silent` where nothing is said, and the need is answered then.
    ///
    /// The last need isn't `Finished` and is unanswered. `held` has the desk that the access took, hasn't the one that it gave,
    /// and has the one whose register a look is for. A desk that was taken on a job's word has that job, done. A write
    /// changes the image at hand, and the job of a desk that came is taken off it.
    pub fn answer(&mut self, found: u32, held: &mut Held) -> Label
        requires told { HasTold self.old }
        requires at_hand { IsAtHand self.old.told held.old.desks }
        ensures label { result ≡ label_of (move_as self.old found held.old.desks) }
        ensures after { self.new ≡ answered (move_as self.old found held.old.desks) held.old.desks self.old }
        ensures desks { held.new.desks ≡ kept_as self.old.told found held.old.desks }
    {
        let mut label = Label::Silent;
        self.answer_on(found, held, &mut label);
        label
    }

    /// The same, where the label takes the place of another one.
    pub fn answer_on(&mut self, found: u32, held: &mut Held, label: &mut Label)
        requires told { HasTold self.old }
        requires at_hand { IsAtHand self.old.told held.old.desks }
        ensures said { label.new ≡ label_of (move_as self.old found held.old.desks) }
        ensures after { self.new ≡ answered (move_as self.old found held.old.desks) held.old.desks self.old }
        ensures desks { held.new.desks ≡ kept_as self.old.told found held.old.desks }
    {
        answer(
            &mut self.progress,
            &self.told,
            found,
            &mut held.desks,
            label,
        );
        self.told = Row::Finished;
    }

    /// The access that is wanted while a need is unanswered. `Finished` before the first `next` of a session, after an answer
    /// and where serving is over.
    pub fn need(&self) -> Need
        ensures { result ≡ need_as self.now.told }
    {
        need_of(&self.told)
    }

    /// The desk whose register the need looks at is held; so it is where the need is another one.
    pub fn is_at_hand(&self, held: &Desks) -> bool
        ensures { result ≡ is_at_hand self.now.told held.now }
    {
        match self.told {
            Row::Reading { cpu, .. } | Row::Writing { cpu, .. } => held.is_held(cpu),
            _ => true,
        }
    }

    /// How many processors the platform has.
    pub fn processors(&self) -> u16
        ensures { result ≡ self.now.setup.processors }
    {
        self.progress.setup.processors
    }

    /// The number of the job that a processor was given since the last `begin` and that no answer collected. None where
    /// there is none.
    pub fn job_of(&self, c: u16) -> Option<u32>
        ensures { result ≡ job_number (seat self.now.course.place.state c) }
    {
        match self.progress.state.seat(c) {
            Seat::Free => None,
            Seat::Open(job, _) => Some(job),
            Seat::Done(job, _, _, _) => Some(job),
        }
    }
}

fn need_of(row: &Row) -> Need
    ensures { result ≡ need_as row.now }
{
    match row {
        Row::Finished => Need::Finished,
        Row::Looking(_) => Need::Look,
        Row::ClaimingDesk(c, _) => Need::ClaimPresent(*c),
        Row::ClaimingJob(c, _) => Need::ClaimBusy(*c),
        Row::AwaitingJob(c) => Need::AwaitBusy(*c),
        Row::Putting(c) => Need::PutBusy(*c),
        Row::Raising(c, _) => Need::RaiseRun(*c),
        Row::Reading { .. } => Need::Look,
        Row::Writing { .. } => Need::Look,
        Row::Allocating(_) => Need::Look,
        Row::Freeing(_) => Need::Look,
    }
}

// The desk that a raise gives away has the job of its label.
fn give_by(row: &Row, held: &mut Desks)
    ensures { held.new ≡ handed_as row.now held.old }
{
    if let Row::Raising(c, label) = row {
        give_job(*c, label, held);
    }
}

fn give_job(c: u16, label: &Label, held: &mut Desks)
    ensures { held.new ≡ given_job c label.now held.old }
{
    if let Label::Start {
        job,
        procedure,
        arg,
        ..
    } = label
    {
        held.give(
            c,
            Job {
                number: *job,
                procedure: *procedure,
                arg: *arg,
                done: None,
            },
        );
    }
}
