ghost use Rattle.std.specs.Prelude.{◌≡◌, ◌++◌, ◌∷◌, [], IfOk, string_bytes};
ghost use Rattle.smm_player.specs.Refusal.{refusal_status, refusal_line};

use crate::images::ImagesFault;
use cpu_table::Text;
use platform_file::{PlatformError, ScheduleError};
use smm_base::NoMemory;
use std::alloc::Global;
use std::fmt;
use trace_judge::TraceFault;

/// Why an input file was refused.
#[derive(Drop)]
pub enum Refusal {
    /// The file with this name was not loaded.
    Read(Text),
    /// The file with this name has more bytes than this limit.
    TooLong(Text, u64),
    /// The platform file describes no platform.
    Platform(PlatformError),
    /// The image file doesn't serve the platform.
    Images(ImagesFault),
    /// The file is no schedule of the platform.
    Schedule(ScheduleError),
    /// The file is no trace of a run on the platform.
    Trace(TraceFault),
}

impl Refusal {
    /// The exit status.
    pub(crate) fn status(&self) -> u8
        ensures { result ≡ refusal_status self.now }
    {
        match self {
            Refusal::Read(_) | Refusal::TooLong(..) => 6,
            Refusal::Platform(_) => 2,
            Refusal::Images(_) => 3,
            Refusal::Schedule(_) => 4,
            Refusal::Trace(_) => 5,
        }
    }
}

/// Writes the line that tells it, without its end.
impl fmt::Display for Refusal {
    ghost use Rattle.std.specs.Prelude.{Some};
    ghost use Rattle.smm_player.specs.Refusal.{fault_text};

    ghost output = { λ refusal. Some (fault_text refusal) };

    fn fmt<W: fmt::Write>(&self, f: &mut fmt::Formatter<W>) -> fmt::Result {
        match self {
            Refusal::Read(name) => write!(f, "fault read {}", name.as_str()),
            Refusal::TooLong(name, limit) => write!(f, "fault too-long {} {limit}", name.as_str()),
            Refusal::Platform(error) => write!(f, "fault platform {error}"),
            Refusal::Images(fault) => write!(f, "fault images {fault}"),
            Refusal::Schedule(error) => write!(f, "fault schedule {error}"),
            Refusal::Trace(fault) => write!(f, "fault trace {fault}"),
        }
    }
}

// The line that tells why an input file is refused.
#[tactic(auto, unfolding(crate::specs::Refusal::refusal_line))]
pub(crate) fn line_of(alloc: Global, refusal: &Refusal) -> Result<String, NoMemory>
    ensures { IfOk result (λ line. string_bytes line ≡ refusal_line refusal.now) }
{
    Ok(format!(in alloc; "{refusal}\n")?)
}
