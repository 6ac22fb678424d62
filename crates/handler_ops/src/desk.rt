ghost use Rattle.std.specs.Prelude.{◌≡◌, None, true, IfOk, IsSomeAnd, IfSome};
ghost use Rattle.handler_ops.specs.Answering.{without_job, written_on};
ghost use Rattle.handler_ops.specs.Course.{write_of};
ghost use Rattle.handler_ops.specs.Procedures.{CanRun, job_on, desk_with};
ghost use Rattle.handler_ops.specs.Told.{with_job};

use crate::procedure::{run_job, write_number};
use cpu_table::Setup;
use save_state_map::Image;
use smm_base::{NoMemory, Status};
use std::alloc::Global;
use std::marker::Model;

/// A procedure that a processor was given to run.
#[derive(Clone, Copy)]
pub struct Job {
    /// Its number in the session, from 1.
    pub number: u32,
    /// The procedure's place in the platform's list of procedures.
    pub procedure: u16,
    /// The argument, which a procedure that writes a register uses.
    pub arg: u64,
    /// The result and the status once it was run.
    pub done: Option<(u64, Status)>,
}

/// A processor's image and the job that it was given, which change hands together.
#[derive(Drop)]
pub struct Desk {
    pub image: Image,
    pub job: Option<Job>,
}

/// A desk on the heap, which changes hands at the cost of a pointer. Contracts see it as the desk.
#[derive(Drop)]
pub struct BoxedDesk {
    desk: Box<Desk>,
}

impl Model for BoxedDesk {
    ghost use Rattle.handler_ops.specs.declared.desk.Desk.{Desk};

    ghost Value = { Desk };

    ghost view = { λ b. b.desk.value };
}

impl BoxedDesk {
    /// It takes the memory of one desk.
    pub fn new(alloc: Global, desk: Desk) -> Result<BoxedDesk, NoMemory>
        ensures { IfOk result (λ boxed. boxed ≡ desk) }
    {
        let desk = Box::new(alloc, desk)?;
        Ok(BoxedDesk { desk })
    }

    pub fn get(&self) -> &Desk
        ensures { result.now ≡ self.now }
    {
        &self.desk
    }

    /// Replaces the image.
    pub fn set_image(&mut self, image: Image)
        ensures { self.new ≡ record self.old { image = image } }
    {
        self.desk.image = image;
    }

    /// Gives a job, in place of one that was there.
    pub fn give(&mut self, job: Job)
        requires { job.done ≡ None }
        ensures { self.new ≡ with_job job.number job.procedure job.arg self.old }
    {
        self.desk.job = Some(job);
    }

    /// Takes the job off.
    pub fn take_job(&mut self) -> Option<Job>
        ensures job { result ≡ self.old.job }
        ensures left { self.new ≡ without_job self.old }
    {
        self.desk.job.take()
    }

    /// Writes the low bytes of a number to a register of the image, as many as the width.
    pub fn write(&mut self, reg: u32, width: u8, value: u64) -> Status
        ensures status { result ≡ (write_of true self.old.image reg width value).status }
        ensures after { self.new ≡ written_on reg width value self.old }
    {
        write_number(&mut self.desk.image, true, reg, usize::from(width), value)
    }

    /// Runs the job on the desk, as [`run_job`] does.
    pub fn run(&mut self, setup: &Setup) -> (u64, Status)
        requires { IsSomeAnd self.old.job (CanRun setup.now.procedures) }
        ensures answer { IfSome self.old.job (λ job. result ≡ (job_on setup.now.procedures job self.old.image).answer) }
        ensures desk { IfSome self.old.job (λ job. self.new ≡ desk_with job (job_on setup.now.procedures job self.old.image)) }
    {
        run_job(setup, &mut self.desk)
    }
}
