ghost use Rattle.std.specs.Prelude.{◌≡◌};
ghost use Rattle.sync_words.specs.Steps.{Accepts, found_of};
ghost use Rattle.cpu_program.specs.Bounds.{IsProcessor};
ghost use Rattle.cpu_program.specs.Views.{processor_in};
ghost use Rattle.cpu_program.specs.Processors.{taken_in, want_in};

use crate::part::Part;
use crate::processor::Processor;
use sync_words::{Applied, Label};

impl Processor {
    /// Goes on after the wanted access was accepted. What the event says takes the place of `label`. The time is at most proportional to the number
    /// of processors, but for a walk's search for its next handler.
    pub fn take(&mut self, applied: Applied, label: &mut Label)
        requires processor { IsProcessor (processor_in self.old) }
        requires accepted { Accepts (want_in self.old.part (processor_in self.old)) applied }
        ensures said { label.new ≡ (taken_in self.old.part (processor_in self.old) (found_of applied)).label }
        ensures after { processor_in self.new ≡ (taken_in self.old.part (processor_in self.old) (found_of applied)).after }
    {
        match &self.part {
            Part::Serving => self.take_serving(applied.found(), label),
            _ => self.take_elsewhere(applied, label),
        }
    }

    // The same, out of line, so that an event of serving doesn't pay for what the other parts need.
    #[inline(never)]
    fn take_elsewhere(&mut self, applied: Applied, label: &mut Label)
        requires processor { IsProcessor (processor_in self.old) }
        requires accepted { Accepts (want_in self.old.part (processor_in self.old)) applied }
        ensures said { label.new ≡ (taken_in self.old.part (processor_in self.old) (found_of applied)).label }
        ensures after { processor_in self.new ≡ (taken_in self.old.part (processor_in self.old) (found_of applied)).after }
    {
        let found = applied.found();
        let next = match &mut self.part {
            Part::Between(row) => {
                let row = *row;
                self.take_at(row, found, label);
                return;
            }
            Part::Serving => {
                self.take_serving(found, label);
                return;
            }
            Part::Entering(entry) => {
                *label = entry.take(applied);
                entry.left()
            }
            Part::Gathering(gather) => {
                *label = gather.take(applied);
                gather.left()
            }
            Part::Closing(close) => {
                *label = close.take(applied);
                close.left()
            }
            Part::Exiting(exit) => {
                *label = exit.take(applied);
                exit.left()
            }
            Part::Reporting(report) => {
                *label = report.take(applied);
                let next = report.left();
                let bsp = report.bsp();
                self.know(bsp);
                next
            }
            Part::Off => {
                *label = Label::Silent;
                return;
            }
        };
        self.leave(next);
    }
}
