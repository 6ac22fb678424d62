ghost use Rattle.std.specs.Prelude.{◌≡◌, replicate};
ghost use Rattle.save_state_access.specs.Reading.{read_answer};
ghost use Rattle.smm_base.specs.Register.{register_number};
ghost use Rattle.cpu_regs.specs.Entering.{after};
ghost use Rattle.handler_ops.specs.Course.{write_of};
ghost use Rattle.handler_ops.specs.Procedures.{job_on};
ghost use Rattle.rendezvous_machine.specs.Services.{written};
ghost use Rattle.trace_members.specs.Members.{is_answer, answers_by, shows_read};

use cpu_regs::{After, Regs, resume};
use cpu_table::Setup;
use handler_ops::{Desk, Job, read_number, run_job, write_number};
use save_state_map::Image;
use serving_judge::is_status;
use smm_base::{Register, Status};

/// The image after a write with this status: only `Success` changes it.
pub fn after_write(
    image: &Image,
    register: Register,
    width: u32,
    value: u64,
    status: Status,
) -> Image
    ensures { result ≡ written status register width value image.now }
{
    let mut after = *image;
    if let Status::Success = status {
        let _ = write_number(&mut after, true, register.number(), width as usize, value);
    }
    after
}

/// The status of a write to an image that is present or not.
pub fn write_status(
    image: &Image,
    present: bool,
    register: Register,
    width: u32,
    value: u64,
) -> Status
    ensures { result ≡ (write_of present image.now (register_number register) width value).status }
{
    let mut after = *image;
    write_number(
        &mut after,
        present,
        register.number(),
        width as usize,
        value,
    )
}

/// A job that is done on a copy of an image: its result and status, and the image then.
fn done(setup: &Setup, job: Job, image: &Image) -> ((u64, Status), Image)
    ensures answer { result.0 ≡ (job_on setup.now.procedures job image.now).answer }
    ensures image { result.1 ≡ (job_on setup.now.procedures job image.now).image }
{
    if usize::from(job.procedure) >= setup.procedures.as_slice().len() {
        return ((0, Status::NotFound), *image);
    }
    let mut desk = Desk {
        image: *image,
        job: Some(Job {
            number: job.number,
            procedure: job.procedure,
            arg: job.arg,
            done: None,
        }),
    };
    let answer = run_job(setup, &mut desk);
    (answer, desk.image)
}

/// The image after a job.
pub fn after_job(setup: &Setup, job: Job, image: &Image) -> Image
    ensures { result ≡ (job_on setup.now.procedures job image.now).image }
{
    done(setup, job, image).1
}

fn is_answer(answer: (u64, Status), result_value: u64, status: Status) -> bool
    ensures { result ≡ is_answer answer result_value status }
{
    answer.0 == result_value && is_status(answer.1, status)
}

/// The open job has this number, and gives this result and status on the image.
pub fn answers(
    setup: &Setup,
    image: &Image,
    job: Option<Job>,
    number: u32,
    result_value: u64,
    status: Status,
) -> bool
    ensures { result ≡ answers_by setup.now.procedures image.now job number result_value status }
{
    match job {
        None => false,
        Some(job) => {
            job.number == number
                && job.done.is_none()
                && is_answer(done(setup, job, image).0, result_value, status)
        }
    }
}

/// How a processor goes on that resumes from the image.
pub fn after_of(image: &Image) -> After
    ensures { result ≡ after image.now }
{
    let mut registers = Regs::of(image);
    resume(image, &mut registers)
}

/// A read of so many bytes of an image, which is present or not, shows this value and this status.
pub fn shows_read(
    image: &Image,
    present: bool,
    id: u64,
    register: Register,
    width: u8,
    value: u64,
    status: Status,
) -> bool
    ensures { result ≡ shows_read (read_answer image.now present id (register_number register) (replicate width 0)) value status }
{
    let answer = read_number(image, present, id, register.number(), usize::from(width));
    value == answer.0 && is_status(answer.1, status)
}
