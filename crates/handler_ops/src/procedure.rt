ghost use Rattle.std.specs.Prelude.{◌≡◌, ◌≤◌, true, take, replicate, IsSomeAnd, IfSome};
ghost use Rattle.save_state_access.specs.Reading.{read_answer};
ghost use Rattle.handler_ops.specs.Course.{shown_value, write_of};
ghost use Rattle.handler_ops.specs.Procedures.{read_whole, write_whole, act_on, job_on, desk_with, CanRun};

use crate::desk::{Desk, Job};
use byteorder::{ByteOrder, LittleEndian};
use cpu_table::{Act, ProcedureDef, Setup};
use save_state_access::{own_width, read_register, write_register};
use save_state_map::Image;
use smm_base::Status;

/// Runs the job on the desk, and gives its result and its status. `Get` gives the number in the first 8 bytes of the
/// register by its own width, or 0 where the status isn't `Success`; `Put` writes the low bytes of the argument, as many as
/// the register has, and gives 0. The desk's image changes by a `Put` with `Success` alone, and its job is done afterwards.
pub fn run_job(setup: &Setup, desk: &mut Desk) -> (u64, Status)
    requires { IsSomeAnd desk.old.job (CanRun setup.now.procedures) }
    ensures answer { IfSome desk.old.job (λ job. result ≡ (job_on setup.now.procedures job desk.old.image).answer) }
    ensures desk { IfSome desk.old.job (λ job. desk.new ≡ desk_with job (job_on setup.now.procedures job desk.old.image)) }
{
    let Some(job) = desk.job else {
        return (0, Status::NotFound);
    };
    let Some(procedure) = setup.procedures.as_slice().get(usize::from(job.procedure)) else {
        return (0, Status::NotFound);
    };
    let answer = run_procedure(procedure, job.arg, &mut desk.image);
    desk.job = Some(Job {
        number: job.number,
        procedure: job.procedure,
        arg: job.arg,
        done: Some(answer),
    });
    answer
}

fn run_procedure(procedure: &ProcedureDef, arg: u64, image: &mut Image) -> (u64, Status)
    ensures answer { result ≡ (act_on procedure.now.act procedure.now.reg arg image.old).answer }
    ensures image { image.new ≡ (act_on procedure.now.act procedure.now.reg arg image.old).image }
{
    match procedure.act {
        Act::Get => get_register(image, procedure.reg),
        Act::Put => (0, put_register(image, procedure.reg, arg)),
    }
}

// What a register holds, by its own width.
fn get_register(image: &Image, reg: u32) -> (u64, Status)
    ensures { result ≡ (shown_value (read_whole image.now reg), (read_whole image.now reg).status) }
{
    read_number(image, true, 0, reg, own_width(image.kind(), reg))
}

// Writes the low bytes of a number, as many as the register has.
fn put_register(image: &mut Image, reg: u32, number: u64) -> Status
    ensures status { result ≡ (write_whole image.old reg number).status }
    ensures image { image.new ≡ (write_whole image.old reg number).image }
{
    let width = own_width(image.kind(), reg);
    write_number(image, true, reg, width, number)
}

/// Writes the low bytes of a number, as many as the width. Those above the eighth are 0. `present` says whether the image
/// may be written.
pub fn write_number(image: &mut Image, present: bool, reg: u32, width: usize, number: u64) -> Status
    ensures status { result ≡ (write_of present image.old reg width number).status }
    ensures image { image.new ≡ (write_of present image.old reg width number).image }
{
    let mut bytes = [0; 24];
    LittleEndian::write_u64(&mut bytes, number);
    write_register(image, present, reg, first_bytes(&bytes, width))
}

fn first_bytes(bytes: &[u8], count: usize) -> &[u8]
    ensures { result.now ≡ take count bytes.now }
{
    let count = bytes.len().min(count);
    &bytes[..count]
}

/// What a read of so many bytes of a register shows: the number in the first 8 of them, or 0, and the status.
pub fn read_number(image: &Image, present: bool, id: u64, reg: u32, width: usize) -> (u64, Status)
    requires { width ≤ 256 }
    ensures number { result.0 ≡ shown_value (read_answer image.now present id reg (replicate width 0)) }
    ensures status { result.1 ≡ (read_answer image.now present id reg (replicate width 0)).status }
{
    let mut bytes = [0; 256];
    let status = read_register(image, present, id, reg, &mut bytes[..width]);
    (LittleEndian::read_u64(&bytes), status)
}
