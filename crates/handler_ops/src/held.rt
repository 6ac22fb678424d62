ghost use Rattle.std.specs.Prelude.{◌≡◌, ◌<◌, true, None, Some, IsSome, length, option_copied, option_map, replicate, slice_set};
ghost use Rattle.save_state_access.specs.Reading.{read_answer};
ghost use Rattle.handler_ops.specs.Answering.{without_job, taken_off, written_on, written, job_on};
ghost use Rattle.handler_ops.specs.Course.{desk_of, image_in, is_held, shown_value, write_of};
ghost use Rattle.handler_ops.specs.Told.{with_job};

use crate::desk::{BoxedDesk, Desk, Job};
use crate::procedure::read_number;
use smm_base::Status;
use std::marker::Model;

/// The desks that the boot processor holds: an item for each processor by rising number, which contracts see as the list.
#[derive(Drop)]
pub struct Desks {
    desks: Vec<Option<BoxedDesk>>,
}

impl Model for Desks {
    ghost use Rattle.std.specs.Prelude.{List, Option};
    ghost use Rattle.handler_ops.specs.declared.desk.Desk.{Desk};

    ghost Value = { List (Option Desk) };

    ghost view = { λ a. a.desks.items };
}

impl Desks {
    pub fn new(desks: Vec<Option<BoxedDesk>>) -> Self
        ensures { result ≡ desks.items }
    {
        Desks { desks }
    }

    /// How many processors there are an item for.
    pub fn len(&self) -> usize
        ensures { result ≡ length self.now }
    {
        self.desks.len()
    }

    /// The desk of a processor is held.
    #[tactic(auto, using(crate::proofs::Dues::held_is))]
    pub fn is_held(&self, c: u16) -> bool
        ensures { result ≡ is_held self.now c }
    {
        match self.desks.get(usize::from(c)) {
            Some(item) => item.is_some(),
            None => false,
        }
    }

    /// The desk of a processor, if it is held.
    pub fn get(&self, c: u16) -> Option<&Desk>
        ensures { option_copied result ≡ desk_of self.now c }
    {
        let desk = self.desks.get(usize::from(c))?.as_ref()?;
        Some(desk.get())
    }

    /// Gives up the desk of a processor, if it is held.
    pub fn take(&mut self, c: u16) -> Option<BoxedDesk>
        ensures taken { result ≡ desk_of self.old c }
        ensures left { self.new ≡ slice_set self.old c None }
    {
        match self.desks.get_mut(usize::from(c)) {
            Some(item) => item.take(),
            None => None,
        }
    }

    /// Gives a job to the desk of a processor, if it is held.
    pub fn give(&mut self, c: u16, job: Job)
        requires { job.done ≡ None }
        ensures { self.new ≡ slice_set self.old c (option_map (with_job job.number job.procedure job.arg) (desk_of self.old c)) }
    {
        if let Some(item) = self.desks.get_mut(usize::from(c)) {
            give_to(item, job);
        }
    }

    /// Takes the job off the desk of a processor, if it is held.
    pub fn take_job(&mut self, c: u16) -> Option<Job>
        ensures job { result ≡ job_on (desk_of self.old c) }
        ensures left { self.new ≡ taken_off c self.old }
    {
        match self.desks.get_mut(usize::from(c)) {
            Some(item) => take_from(item),
            None => None,
        }
    }

    /// What a read of a register of the image at hand shows: the number in the first 8 bytes, or 0, and the status.
    #[tactic(auto, using(crate::proofs::Dues::held_is))]
    pub fn read(&self, c: u16, id: u64, reg: u32, width: u8) -> (u64, Status)
        requires { is_held self.now c ≡ true }
        ensures number { result.0 ≡ shown_value (read_answer (image_in (desk_of self.now c)) true id reg (replicate width 0)) }
        ensures status { result.1 ≡ (read_answer (image_in (desk_of self.now c)) true id reg (replicate width 0)).status }
    {
        match self.desks.get(usize::from(c)) {
            Some(Some(desk)) => read_number(&desk.get().image, true, id, reg, usize::from(width)),
            _ => (0, Status::InvalidParameter),
        }
    }

    /// Writes the low bytes of a number to a register of the image at hand, as many as the width.
    #[tactic(auto, using(crate::proofs::Dues::held_is))]
    pub fn write(&mut self, c: u16, reg: u32, width: u8, value: u64) -> Status
        requires { is_held self.old c ≡ true }
        ensures status { result ≡ (write_of true (image_in (desk_of self.old c)) reg width value).status }
        ensures desks { self.new ≡ written c reg width value self.old }
    {
        match self.desks.get_mut(usize::from(c)) {
            Some(item) => write_to(item, reg, width, value),
            None => Status::InvalidParameter,
        }
    }

    /// Holds the desk of a processor.
    pub fn put(&mut self, c: u16, desk: BoxedDesk)
        requires { c < length self.old }
        ensures { self.new ≡ slice_set self.old c (Some desk) }
    {
        self.desks[usize::from(c)] = Some(desk);
    }
}

fn give_to(item: &mut Option<BoxedDesk>, job: Job)
    requires { job.done ≡ None }
    ensures { item.new ≡ option_map (with_job job.number job.procedure job.arg) item.old }
{
    if let Some(desk) = item {
        desk.give(job);
    }
}

fn take_from(item: &mut Option<BoxedDesk>) -> Option<Job>
    ensures job { result ≡ job_on item.old }
    ensures desk { item.new ≡ option_map without_job item.old }
{
    match item {
        Some(desk) => desk.take_job(),
        None => None,
    }
}

fn write_to(item: &mut Option<BoxedDesk>, reg: u32, width: u8, value: u64) -> Status
    requires { IsSome item.old }
    ensures status { result ≡ (write_of true (image_in item.old) reg width value).status }
    ensures desk { item.new ≡ option_map (written_on reg width value) item.old }
{
    match item {
        Some(desk) => desk.write(reg, width, value),
        None => Status::InvalidParameter,
    }
}

/// What the boot processor holds while it serves.
#[derive(Drop)]
pub struct Held {
    pub desks: Desks,
}
