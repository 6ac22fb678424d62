ghost use Rattle.std.specs.Prelude.{◌≡◌, ◌<◌, ◌≤◌, ◌^◌, length};
ghost use Rattle.exit_handshake.specs.Desks.{desks_of};
ghost use Rattle.sync_words.specs.Steps.{next_below};
ghost use Rattle.cpu_program.specs.Bounds.{IsReady, IsServing};
ghost use Rattle.cpu_program.specs.declared.part.Part.TheVariants as part;
ghost use Rattle.cpu_program.specs.Views.{processor_in};
ghost use Rattle.cpu_program.specs.Processors.{is_relaxed, is_elected, desks_held, close_begun, exit_begun, go_on, begin_exit, to_await, after_source, after_jobs, owes_job, to_jobs, is_at_need, with_need, served, begin_serving, taken_serving, at_row, left_to, known_bsp};

use crate::part::Part;
use crate::processor::Processor;
use arrival::{Entry, Gather, Report};
use cpu_table::{Mode, Policy};
use exit_handshake::{Close, Exit};
use handler_ops::{Desks, Need, Server};
use sync_words::{Label, Row};

// How a processor goes from one part to the next.
impl Processor {
    /// It goes on at this row: the part that begins with it, or the row by itself.
    pub fn go_on(&mut self, row: Row)
        requires { IsReady self.old }
        ensures { processor_in self.new ≡ go_on row (processor_in self.old) }
    {
        self.part = match row {
            Row::LookAtSource => Part::Entering(Entry::new(&self.identity.setup, self.identity.me)),
            Row::LookAtExcept => Part::Gathering(Gather::new(
                &self.identity.setup,
                self.identity.me,
            )),
            Row::MarkInsync => Part::Closing(self.close()),
            Row::AwaitInside(_) => Part::Reporting(Report::new(
                &self.identity.setup,
                self.identity.me,
            )),
            row => Part::Between(row),
        };
    }

    fn close(&self) -> Close
        requires { IsReady self.now }
        ensures { result ≡ close_begun (processor_in self.now) }
    {
        let held = held_bits(&self.held.desks);
        Close::new(
            self.identity.setup.processors,
            self.identity.me,
            held,
            is_relaxed(self.identity.setup.mode),
        )
    }

    fn exit(&self) -> Exit
        requires { IsReady self.now }
        ensures { result ≡ exit_begun (processor_in self.now) }
    {
        let held = held_bits(&self.held.desks);
        Exit::new(
            self.identity.setup.processors,
            self.identity.me,
            held,
            is_elected(self.identity.setup.policy),
        )
    }

    /// The way out of the others begins.
    pub fn begin_exit(&mut self)
        requires { IsReady self.old }
        ensures { processor_in self.new ≡ begin_exit (processor_in self.old) }
    {
        self.part = Part::Exiting(self.exit());
    }

    /// The wait for the next interrupt, or after all its visits the row that turns its signal off.
    pub fn await_row(&self) -> Row
        ensures { result ≡ to_await (processor_in self.now) }
    {
        if self.visits >= self.identity.setup.visits {
            Row::SwitchOff
        } else {
            Row::AwaitSmi
        }
    }

    /// The row that collects the next uncollected job from a processor on, or what comes after serving. The time is at most proportional
    /// to the number of processors.
    pub fn jobs_row(&self, from: u16) -> Row
        ensures { result ≡ to_jobs from (processor_in self.now) }
    {
        match self.next_job(from) {
            Some(cpu) => Row::CollectJob(cpu),
            None => after_jobs(self.identity.setup.mode),
        }
    }

    fn next_job(&self, from: u16) -> Option<u16>
        ensures { result ≡ next_below self.now.identity.setup.processors (owes_job self.now.chair) from }
    {
        (from..self.identity.setup.processors).find(|cpu| owes_job(&self.chair, *cpu))
    }

    // It serves. Where it does already nothing is written.
    fn serve(&mut self)
        ensures { processor_in self.new ≡ record (processor_in self.old) { part = part.Serving } }
    {
        match &self.part {
            Part::Serving => {}
            _ => self.part = Part::Serving,
        }
    }

    /// Serving goes on where there is a need to be met; else the jobs are collected.
    fn go_on_serving(&mut self, has_need: bool)
        requires { IsReady self.old }
        ensures { processor_in self.new ≡ with_need has_need (processor_in self.old) }
    {
        if has_need {
            self.serve();
        } else {
            self.go_on(self.jobs_row(0));
        }
    }

    /// The session tells its next need.
    fn serve_on(&mut self)
        requires { IsReady self.old }
        ensures { processor_in self.new ≡ served self.old.chair (processor_in self.old) }
    {
        if let Some(server) = &mut self.chair {
            let need = server.next(&mut self.held);
            let at_hand = server.is_at_hand(&self.held.desks);
            self.go_on_serving(is_at_need(self.identity.setup.processors, need) && at_hand);
        }
    }

    fn begin_serving(&mut self)
        requires { IsReady self.old }
        ensures { processor_in self.new ≡ begin_serving self.old.chair (processor_in self.old) }
    {
        match &mut self.chair {
            None => self.go_on(after_jobs(self.identity.setup.mode)),
            Some(server) => {
                server.begin(self.identity.me, self.wave);
                self.serve_on();
            }
        }
    }

    /// The session is told what its access found, and tells its next need. What the event says takes the place of `label`.
    pub fn take_serving(&mut self, found: u32, label: &mut Label)
        requires ready { IsReady self.old }
        requires told { IsServing self.old.identity.setup.processors self.old.chair self.old.held.desks }
        ensures said { label.new ≡ (taken_serving self.old.chair (processor_in self.old) found).label }
        ensures after { processor_in self.new ≡ (taken_serving self.old.chair (processor_in self.old) found).after }
    {
        match &mut self.chair {
            None => *label = Label::Silent,
            Some(server) => {
                server.answer_on(found, &mut self.held, label);
                self.serve_on();
            }
        }
    }

    /// It goes on at this row, which may be that of serving.
    pub fn at_row(&mut self, row: Row)
        requires { IsReady self.old }
        ensures { processor_in self.new ≡ at_row row (processor_in self.old) }
    {
        match row {
            Row::Serve => self.begin_serving(),
            row => self.go_on(row),
        }
    }

    /// Where a part has ended, it goes on at the row that comes next.
    pub fn leave(&mut self, next: Option<Row>)
        requires { IsReady self.old }
        ensures { processor_in self.new ≡ left_to next (processor_in self.old) }
    {
        if let Some(row) = next {
            self.at_row(row);
        }
    }

    /// An AP keeps whom it reports to.
    pub fn know(&mut self, bsp: Option<u16>)
        ensures { processor_in self.new ≡ known_bsp bsp (processor_in self.old) }
    {
        if let Some(bsp) = bsp {
            self.bsp = bsp;
        }
    }
}

/// The row after the wave was taken: the relaxed mode serves at once.
pub fn after_source(mode: Mode) -> Row
    ensures { result ≡ after_source mode }
{
    match mode {
        Mode::Traditional => Row::LookAtExcept,
        Mode::Relaxed => Row::Serve,
    }
}

// The row after the jobs: the relaxed mode closes the session.
fn after_jobs(mode: Mode) -> Row
    ensures { result ≡ after_jobs mode }
{
    match mode {
        Mode::Traditional => Row::LeaveInside,
        Mode::Relaxed => Row::MarkInsync,
    }
}

fn is_relaxed(mode: Mode) -> bool
    ensures { result ≡ is_relaxed mode }
{
    matches!(mode, Mode::Relaxed)
}

fn is_elected(policy: Policy) -> bool
    ensures { result ≡ is_elected policy }
{
    matches!(policy, Policy::Elected)
}

// Was the processor given a job in this session that wasn't collected?
fn owes_job(chair: &Option<Server>, cpu: u16) -> bool
    ensures { result ≡ owes_job chair.now cpu }
{
    match chair {
        None => false,
        Some(server) => server.job_of(cpu).is_some(),
    }
}

// Is there a need, of a processor of the platform if it names one?
fn is_at_need(processors: u16, need: Need) -> bool
    ensures { result ≡ is_at_need processors need }
{
    match need {
        Need::Look => true,
        Need::ClaimPresent(cpu)
        | Need::ClaimBusy(cpu)
        | Need::AwaitBusy(cpu)
        | Need::PutBusy(cpu)
        | Need::RaiseRun(cpu) => cpu < processors,
        Need::Finished => false,
    }
}

// Whose desks are held, as one bit for each processor.
fn held_bits(held: &Desks) -> u64
    requires { length held.now ≤ 64 }
    ensures desks { desks_of result ≡ desks_held held.now }
    ensures within { result < 2 ^ length held.now }
{
    let mut bits = 0;
    for cpu in 0..held.len() as u16 {
        if held.is_held(cpu) {
            bits |= 1 << cpu;
        }
    }
    bits
}
