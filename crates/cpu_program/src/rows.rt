ghost use Rattle.std.specs.Prelude.{◌≡◌, ◌<◌};
ghost use Rattle.cpu_table.specs.Data.{data_of};
ghost use Rattle.sync_words.specs.declared.label.Label.TheVariants.{Off, Collect, Depart, Done};
ghost use Rattle.sync_words.specs.declared.row.Row.TheVariants as row;
ghost use Rattle.cpu_program.specs.declared.part.Part.TheVariants as gone;
ghost use Rattle.cpu_program.specs.Bounds.{IsReady, HasImages, IsRow};
ghost use Rattle.cpu_program.specs.Views.{processor_in};
ghost use Rattle.cpu_program.specs.Processors.{begin_exit, between, can_run_on, job_label, job_to_run, own_desk, ran_label, taken_at, work_row};

use crate::going::after_source;
use crate::hands::can_run;
use crate::part::Part;
use crate::processor::Processor;
use cpu_table::Setup;
use handler_ops::Job;
use smm_base::Status;
use sync_words::{DELIVERABLE, Label, Row};

// The rows between the parts.
impl Processor {
    /// Goes on after the access of this row found a number. What the event says takes the place of `label`. The time is at most
    /// proportional to the number of processors.
    pub fn take_at(&mut self, row: Row, found: u32, label: &mut Label)
        requires ready { IsReady self.old }
        requires images { HasImages self.old }
        requires within { IsRow row (data_of self.old.identity.setup) self.old.visits }
        ensures said { label.new ≡ (taken_at row (processor_in self.old) found).label }
        ensures after { processor_in self.new ≡ (taken_at row (processor_in self.old) found).after }
    {
        *label = Label::Silent;
        match row {
            Row::AwaitSmi => self.take_smi(found, label),
            Row::SwitchOff => self.turn_off(label),
            Row::MarkInside => self.go_to(Row::TakeSource),
            Row::TakeSource => self.take_source(found, label),
            Row::CollectJob(cpu) => self.collect_job(cpu, label),
            Row::LeaveInside => self.leave_inside(label),
            Row::AwaitRelease => self.take_desk_back(),
            Row::GiveDeskBack => self.tell_of_job(label),
            Row::TellReleased => self.go_to(Row::AwaitDismissal),
            Row::AwaitDismissal => self.go_to(Row::WithdrawReport),
            Row::WithdrawReport => self.depart(label),
            Row::TellDismissed => self.go_to(Row::AwaitSessionEnd),
            Row::AwaitSessionEnd => self.go_to(Row::ClearSignal),
            Row::ClearSignal => *label = self.resume(),
            _ => {}
        }
    }

    // A deliverable signal begins a visit; the other one that is accepted says that the processor is off.
    fn take_smi(&mut self, found: u32, label: &mut Label)
        requires ready { IsReady self.old }
        requires images { HasImages self.old }
        requires left { self.old.visits < self.old.identity.setup.visits }
        ensures said { label.new ≡ (taken_at row.AwaitSmi (processor_in self.old) found).label }
        ensures after { processor_in self.new ≡ (taken_at row.AwaitSmi (processor_in self.old) found).after }
    {
        if found == DELIVERABLE {
            self.enter();
            *label = Label::Enter;
        } else {
            self.turn_off(label);
        }
    }

    fn turn_off(&mut self, label: &mut Label)
        ensures said { label.new ≡ Off }
        ensures after { processor_in self.new ≡ record (processor_in self.old) { part = gone.Off } }
    {
        self.part = Part::Off;
        *label = Label::Off;
    }

    // The wave that was found is served.
    fn take_source(&mut self, found: u32, label: &mut Label)
        requires { IsReady self.old }
        ensures said { label.new ≡ (taken_at row.TakeSource (processor_in self.old) found).label }
        ensures after { processor_in self.new ≡ (taken_at row.TakeSource (processor_in self.old) found).after }
    {
        self.wave = found;
        self.at_row(after_source(self.identity.setup.mode));
        *label = Label::Served(found);
    }

    // The job of a processor is taken off its desk, and the next one is collected.
    fn collect_job(&mut self, cpu: u16, label: &mut Label)
        requires ready { IsReady self.old }
        requires within { cpu < self.old.identity.setup.processors }
        ensures said { label.new ≡ Collect cpu }
        ensures after { processor_in self.new ≡ (taken_at (row.CollectJob cpu) (processor_in self.old) 0).after }
    {
        let _job = self.held.desks.take_job(cpu);
        self.go_on(self.jobs_row(cpu + 1));
        *label = Label::Collect(cpu);
    }

    fn leave_inside(&mut self, label: &mut Label)
        requires { IsReady self.old }
        ensures said { label.new ≡ Done }
        ensures after { processor_in self.new ≡ begin_exit (processor_in self.old) }
    {
        self.begin_exit();
        *label = Label::Done;
    }

    // An AP has its desk back, with a job or without one.
    fn take_desk_back(&mut self)
        ensures { processor_in self.new ≡ (taken_at row.AwaitRelease (processor_in self.old) 0).after }
    {
        self.go_to(work_row(self.has_work()));
    }

    // The event tells of the job that was run.
    fn tell_of_job(&mut self, label: &mut Label)
        ensures said { label.new ≡ ran_label self.old.ran }
        ensures after { processor_in self.new ≡ (taken_at row.GiveDeskBack (processor_in self.old) 0).after }
    {
        *label = ran_label(&self.ran);
        self.ran = None;
        self.go_to(Row::AwaitRelease);
    }

    fn depart(&mut self, label: &mut Label)
        ensures said { label.new ≡ Depart }
        ensures after { processor_in self.new ≡ between row.TellDismissed (processor_in self.old) }
    {
        *label = Label::Depart;
        self.go_to(Row::TellDismissed);
    }

    // The processor goes on at a row.
    fn go_to(&mut self, next: Row)
        ensures { processor_in self.new ≡ between next (processor_in self.old) }
    {
        self.part = Part::Between(next);
    }

    // Is there a job to run on the processor's own desk?
    fn has_work(&self) -> bool
        ensures { result ≡ job_to_run (data_of self.now.identity.setup) (own_desk (processor_in self.now)) }
    {
        match self.held.desks.get(self.identity.me) {
            None => false,
            Some(desk) => can_run_on(&self.identity.setup, &desk.job),
        }
    }
}

// An AP that has its desk back runs the job on it, or was released.
fn work_row(has_work: bool) -> Row
    ensures { result ≡ work_row has_work }
{
    if has_work {
        Row::GiveDeskBack
    } else {
        Row::TellReleased
    }
}

fn can_run_on(setup: &Setup, job: &Option<Job>) -> bool
    ensures { result ≡ can_run_on (data_of setup.now) job.now }
{
    match job {
        None => false,
        Some(job) => can_run(setup, job),
    }
}

fn ran_label(job: &Option<Job>) -> Label
    ensures { result ≡ ran_label job.now }
{
    match job {
        None => Label::Silent,
        Some(job) => job_label(job.number, job.done),
    }
}

fn job_label(number: u32, done: Option<(u64, Status)>) -> Label
    ensures { result ≡ job_label number done }
{
    match done {
        None => Label::Silent,
        Some((result_value, status)) => Label::Run {
            job: number,
            result_value,
            status,
        },
    }
}
