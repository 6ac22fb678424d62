ghost use Rattle.std.specs.Prelude.{◌≡◌};
ghost use Rattle.smm_player.specs.Fault.{platform_fault, images_fault, schedule_fault};

use crate::images::ImagesFault;
use crate::refusal::Refusal;
use image_file::ImagesError;
use platform_file::{PlatformError, ScheduleError};

/// Why a command did not come to its end.
#[derive(Drop)]
pub enum Fault {
    /// An input file was refused.
    Refused(Refusal),
    /// The report was not written.
    Write,
    /// The images were not saved.
    Save,
    /// There was no memory.
    Memory,
}

// The fault by the error of a platform file.
pub(crate) fn platform_fault(error: PlatformError) -> Fault
    ensures { result ≡ platform_fault error }
{
    match error {
        PlatformError::NoMemory => Fault::Memory,
        error => Fault::Refused(Refusal::Platform(error)),
    }
}

// The fault by the error of an image file.
pub(crate) fn images_fault(error: ImagesError) -> Fault
    ensures { result ≡ images_fault error }
{
    match error {
        ImagesError::NoMemory => Fault::Memory,
        error => Fault::Refused(Refusal::Images(ImagesFault::File(error))),
    }
}

// The fault by the error of a schedule.
pub(crate) fn schedule_fault(error: ScheduleError) -> Fault
    ensures { result ≡ schedule_fault error }
{
    match error {
        ScheduleError::NoMemory => Fault::Memory,
        error => Fault::Refused(Refusal::Schedule(error)),
    }
}
