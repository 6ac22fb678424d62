ghost use Rattle.std.specs.Prelude.{◌≡◌, ◌<◌, slice_set, length, option_map};
ghost use Rattle.cpu_program.specs.Bounds.{AreOfKind, IsReady, HasImages};
ghost use Rattle.cpu_program.specs.Views.{processor_in};
ghost use Rattle.handler_ops.specs.Course.{desk_of};
ghost use Rattle.cpu_program.specs.Processors.{desk_saved, entered, own_desk, resume_label, resumed};

use crate::part::Part;
use crate::processor::Processor;
use cpu_regs::{After, Cause, Regs, enter, resume};
use handler_ops::Desks;
use sync_words::{Label, Row};

// How a visit begins and ends.
impl Processor {
    /// A visit begins: the registers are saved into the image on the processor's own desk, with the cause of the visit.
    pub fn enter(&mut self)
        requires ready { IsReady self.old }
        requires images { HasImages self.old }
        requires left { self.old.visits < self.old.identity.setup.visits }
        ensures { processor_in self.new ≡ entered (processor_in self.old) }
    {
        let cause = self.identity.next_cause(self.visits);
        self.visits += 1;
        save(
            &mut self.held.desks,
            self.identity.me,
            &self.registers,
            &cause,
        );
        self.go_on(Row::LookAtSource);
    }

    /// The visit ends: the processor loads its registers from the image on its own desk, and goes on as the image says.
    #[inline(never)]
    pub fn resume(&mut self) -> Label
        requires { HasImages self.old }
        ensures label { result ≡ resume_label (own_desk (processor_in self.old)) }
        ensures after { processor_in self.new ≡ resumed (own_desk (processor_in self.old)) (processor_in self.old) }
    {
        self.part = Part::Between(self.await_row());
        match self.held.desks.get(self.identity.me) {
            None => Label::Resume(After::Next),
            Some(desk) => {
                let after = resume(&desk.image, &mut self.registers);
                self.last = desk.image;
                Label::Resume(after)
            }
        }
    }
}

// The registers are saved into the image on the desk of a processor, if it is held.
#[inline(never)]
fn save(held: &mut Desks, cpu: u16, registers: &Regs, cause: &Cause)
    requires kinds { AreOfKind registers.now.kind held.old }
    requires own { cpu < length held.old }
    ensures { held.new ≡ slice_set held.old cpu (option_map (desk_saved registers.now cause.now) (desk_of held.old cpu)) }
{
    if let Some(mut desk) = held.take(cpu) {
        let mut image = desk.get().image;
        enter(registers, cause, &mut image);
        desk.set_image(image);
        held.put(cpu, desk);
    }
}
