ghost use Rattle.std.specs.Prelude.{◌≡◌, ◌<◌, IfOk, None, replicate};
ghost use Rattle.cpu_table.specs.Data.{data_of};
ghost use Rattle.cpu_program.specs.Programs.{first_processor, held_at_first};
ghost use Rattle.handler_ops.specs.declared.need.Need.TheVariants as need;
ghost use Rattle.sync_words.specs.Steps.{wants};
ghost use Rattle.cpu_program.specs.Bounds.{IsProcessor};
ghost use Rattle.cpu_program.specs.Views.{processor_in};
ghost use Rattle.cpu_program.specs.Processors.{want_at, want_for, want_of_session, want_in, is_off_part};

use crate::identity::Identity;
use crate::part::Part;
use cpu_regs::Regs;
use handler_ops::{BoxedDesk, Desk, Desks, Held, Job, Need, Server};
use save_state_map::Image;
use smm_base::NoMemory;
use std::alloc::Global;
use sync_words::{Access, Hand, OFF, Row, Want, WordId};

/// A processor. Its image and its job are on its desk, which changes hands; all else stays with it.
#[derive(Drop)]
pub struct Processor {
    pub identity: Identity,
    pub part: Part,
    /// How many it has begun.
    pub visits: u32,
    /// As the BSP, the wave that it serves.
    pub wave: u32,
    /// As an AP, to whom it reports.
    pub bsp: u16,
    pub registers: Regs,
    /// The image that it last resumed from, or its first.
    pub last: Image,
    /// The desks that it holds, its own among them.
    pub held: Held,
    pub chair: Option<Server>,
    /// The job that it ran, until its event tells of it.
    pub ran: Option<Job>,
}

impl Processor {
    /// A processor that waits for its interrupt, with its own desk, which has its image and no job.
    pub fn new(
        identity: Identity,
        image: &Image,
        registers: Regs,
        held: Held,
        chair: Option<Server>,
    ) -> Processor
        requires { held.desks ≡ held_at_first identity.setup.processors identity.me image.now }
        ensures { processor_in result ≡ first_processor (data_of identity.setup) identity.me image.now registers chair }
    {
        Processor {
            identity,
            part: Part::Between(Row::AwaitSmi),
            visits: 0,
            wave: 0,
            bsp: 0,
            registers,
            last: *image,
            held,
            chair,
            ran: None,
        }
    }

    /// What it wants next. Constant time.
    pub fn want(&self) -> Want
        requires { IsProcessor (processor_in self.now) }
        ensures { result ≡ want_in self.now.part (processor_in self.now) }
    {
        match &self.part {
            Part::Between(row) => self.want_at(*row),
            Part::Entering(entry) => entry.want(),
            Part::Gathering(gather) => gather.want(),
            Part::Closing(close) => close.want(),
            Part::Serving => want_of_server(&self.chair),
            Part::Exiting(exit) => exit.want(),
            Part::Reporting(report) => report.want(),
            Part::Off => Want::Off,
        }
    }

    fn want_at(&self, row: Row) -> Want
        ensures { result ≡ want_at row self.now.identity.me self.now.bsp }
    {
        match row {
            Row::AwaitSmi => wants(WordId::Pend(self.identity.me), Access::TakeSmi),
            Row::SwitchOff => wants(WordId::Pend(self.identity.me), Access::Put(OFF)),
            Row::MarkInside => wants(WordId::Inside, Access::Put(1)),
            Row::TakeSource => wants(WordId::Source, Access::Put(0)),
            Row::CollectJob(cpu) => await_busy(cpu),
            Row::LeaveInside => wants(WordId::Inside, Access::Put(0)),
            Row::AwaitRelease => Want::Access {
                word: WordId::Run(self.identity.me),
                access: Access::Down,
                hand: Hand::Take(self.identity.me),
            },
            Row::GiveDeskBack => Want::Access {
                word: WordId::Busy(self.identity.me),
                access: Access::Put(2),
                hand: Hand::Give(self.identity.me),
            },
            Row::TellReleased | Row::TellDismissed => wants(WordId::Run(self.bsp), Access::Up),
            Row::AwaitDismissal => wants(WordId::Run(self.identity.me), Access::Down),
            Row::WithdrawReport => wants(WordId::Present(self.identity.me), Access::Put(0)),
            Row::AwaitSessionEnd => wants(WordId::Insync, Access::Await(0, 0)),
            Row::ClearSignal => wants(WordId::Pend(self.identity.me), Access::ClearSmi),
            _ => Want::Off,
        }
    }

    pub fn is_off(&self) -> bool
        ensures { result ≡ is_off_part self.now.part }
    {
        matches!(self.part, Part::Off)
    }
}

/// The desks that a processor holds at first: its own, which has its image and no job.
pub fn held_at_first(
    alloc: Global,
    processors: u16,
    me: u16,
    image: &Image,
) -> Result<Held, NoMemory>
    requires { me < processors }
    ensures { IfOk result (λ held. held.desks ≡ held_at_first processors me image.now) }
{
    let mut desks = Desks::new(no_desks(alloc, processors)?);
    let desk = Desk {
        image: *image,
        job: None,
    };
    desks.put(me, BoxedDesk::new(alloc, desk)?);
    Ok(Held { desks })
}

fn no_desks(alloc: Global, processors: u16) -> Result<Vec<Option<BoxedDesk>>, NoMemory>
    ensures { IfOk result (λ desks. desks.items ≡ replicate processors None) }
{
    let mut desks = Vec::with_capacity(alloc, usize::from(processors))?;
    for _cpu in 0..processors {
        desks.push(None)?;
    }
    Ok(desks)
}

// An access to a word at which nothing changes hands.
pub fn wants(word: WordId, access: Access) -> Want
    ensures { result ≡ wants word access }
{
    Want::Access {
        word,
        access,
        hand: Hand::Nothing,
    }
}

// The wait for the job of a processor to be run, whose desk comes then.
fn await_busy(cpu: u16) -> Want
    ensures { result ≡ want_for (need.AwaitBusy cpu) }
{
    Want::Access {
        word: WordId::Busy(cpu),
        access: Access::Await(2, 0),
        hand: Hand::Take(cpu),
    }
}

fn want_of_server(chair: &Option<Server>) -> Want
    ensures { result ≡ want_of_session chair.now }
{
    match chair {
        None => Want::Off,
        Some(server) => want_for(server.need()),
    }
}

fn want_for(need: Need) -> Want
    ensures { result ≡ want_for need }
{
    match need {
        Need::Look => wants(WordId::Inside, Access::Look),
        Need::ClaimPresent(cpu) => Want::Access {
            word: WordId::Present(cpu),
            access: Access::Claim(1, 2),
            hand: Hand::Take(cpu),
        },
        Need::ClaimBusy(cpu) => Want::Access {
            word: WordId::Busy(cpu),
            access: Access::Claim(2, 0),
            hand: Hand::Take(cpu),
        },
        Need::AwaitBusy(cpu) => await_busy(cpu),
        Need::PutBusy(cpu) => wants(WordId::Busy(cpu), Access::Put(1)),
        Need::RaiseRun(cpu) => Want::Access {
            word: WordId::Run(cpu),
            access: Access::Up,
            hand: Hand::Give(cpu),
        },
        Need::Finished => Want::Off,
    }
}
