ghost use Rattle.std.specs.Prelude.{◌≡◌, ◌+◌, true};
ghost use Rattle.cpu_table.specs.Data.{data_of};
ghost use Rattle.rendezvous_machine.specs.Machines.{first_member};
ghost use Rattle.rendezvous_machine.specs.declared.phase.Phase.TheVariants as phase;
ghost use Rattle.rendezvous_machine.specs.Services.{written};
ghost use Rattle.rendezvous_machine.specs.Effects.{worked, resumed, enclosed, cleared};
ghost use Rattle.trace_members.specs.Changes.{entered};

use crate::access::{after_job, after_write};
use cpu_regs::{Cause, Regs, enter, resume};
use cpu_table::Setup;
use handler_ops::Job;
use rendezvous_machine::Phase;
use save_state_map::Image;
use smm_base::{Register, Status};
use std::marker::Model;

/// A processor, as the rules see it.
#[derive(Drop)]
pub struct Member {
    phase: Phase,
    /// How many visits it has begun.
    visits: u32,
    registers: Regs,
    image: Image,
    /// The image that it last resumed from, or its first one.
    last: Image,
    /// Its uncollected job.
    job: Option<Job>,
    in_closed_set: bool,
    is_released: bool,
    has_departed: bool,
}

impl Model for Member {
    ghost use Rattle.rendezvous_machine.specs.Machines.{Member};

    ghost Value = { Member };

    ghost use Rattle.std.specs.Prelude.{◌≡◌};

    ghost view = { λ m. record { phase = m.phase; visits = m.visits; registers = m.registers; image = m.image; last = m.last; job = m.job; in_closed_set = m.in_closed_set; is_released = m.is_released; has_departed = m.has_departed } };

    ghost invariant = { λ m. m.registers.kind ≡ m.image.kind };
}

impl Member {
    /// A processor with these registers and this image, before its first visit.
    pub fn first(registers: Regs, image: Image) -> Member
        requires { registers.kind ≡ image.kind }
        ensures { result ≡ first_member registers image }
    {
        Member {
            phase: Phase::Out,
            visits: 0,
            registers,
            image,
            last: image,
            job: None,
            in_closed_set: false,
            is_released: false,
            has_departed: false,
        }
    }

    pub fn phase(&self) -> Phase
        ensures { result ≡ self.now.phase }
    {
        self.phase
    }

    pub fn visits(&self) -> u32
        ensures { result ≡ self.now.visits }
    {
        self.visits
    }

    pub fn image(&self) -> &Image
        ensures { result.now ≡ self.now.image }
    {
        &self.image
    }

    pub fn job(&self) -> Option<Job>
        ensures { result ≡ self.now.job }
    {
        self.job
    }

    pub fn in_closed_set(&self) -> bool
        ensures { result ≡ self.now.in_closed_set }
    {
        self.in_closed_set
    }

    pub fn is_released(&self) -> bool
        ensures { result ≡ self.now.is_released }
    {
        self.is_released
    }

    pub fn has_departed(&self) -> bool
        ensures { result ≡ self.now.has_departed }
    {
        self.has_departed
    }
}

// What becomes of a processor.
impl Member {
    pub fn set_phase(&mut self, phase: Phase)
        ensures { self.new ≡ record self.old { phase = phase } }
    {
        self.phase = phase;
    }

    /// The visit with this number begins: the registers are saved into the image, with its cause.
    #[tactic(auto, using(crate::proofs::ImageKinds::still_saved))]
    pub fn enter(&mut self, visit: u32, cause: &Cause)
        requires { visit ≡ self.old.visits + 1 }
        ensures { self.new ≡ entered cause.now self.old }
    {
        self.phase = Phase::In;
        self.visits = visit;
        enter(&self.registers, cause, &mut self.image);
    }

    /// The visit ends: the registers are loaded from the image.
    #[tactic(auto, using(crate::proofs::ImageKinds::loaded_kind))]
    pub fn resume(&mut self)
        ensures { self.new ≡ resumed self.old }
    {
        self.phase = Phase::Out;
        let _ = resume(&self.image, &mut self.registers);
        self.last = self.image;
    }

    pub fn set_job(&mut self, job: Option<Job>)
        ensures { self.new ≡ record self.old { job = job } }
    {
        self.job = job;
    }

    /// A register of the image was written, with this status.
    #[tactic(auto, using(crate::proofs::ImageKinds::still_written))]
    pub fn write(&mut self, register: Register, width: u32, value: u64, status: Status)
        ensures { self.new ≡ record self.old { image = written status register width value self.old.image } }
    {
        self.image = after_write(&self.image, register, width, value, status);
    }

    /// The processor ran its job, with this answer.
    #[tactic(auto, using(crate::proofs::ImageKinds::still_worked))]
    pub fn run(&mut self, setup: &Setup, answer: (u64, Status))
        ensures { self.new ≡ worked (data_of setup.now) answer self.old }
    {
        if let Some(job) = self.job {
            self.image = after_job(setup, job, &self.image);
            self.job = Some(Job {
                number: job.number,
                procedure: job.procedure,
                arg: job.arg,
                done: Some(answer),
            });
        }
    }

    pub fn release(&mut self)
        ensures { self.new ≡ record self.old { is_released = true } }
    {
        self.is_released = true;
    }

    pub fn depart(&mut self)
        ensures { self.new ≡ record self.old { phase = phase.Gone; has_departed = true } }
    {
        self.phase = Phase::Gone;
        self.has_departed = true;
    }

    /// It is in the closed set where it is counted.
    pub fn enclose(&mut self)
        ensures { self.new ≡ enclosed self.old }
    {
        self.in_closed_set = matches!(self.phase, Phase::Counted | Phase::Here);
    }

    /// It is in no set of the session any more.
    pub fn clear(&mut self)
        ensures { self.new ≡ cleared self.old }
    {
        self.in_closed_set = false;
        self.is_released = false;
        self.has_departed = false;
    }
}
