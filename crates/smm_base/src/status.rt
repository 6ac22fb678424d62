ghost use Rattle.std.specs.Prelude.{◌≡◌, ℕ, List, Some, IfSome};
ghost use Rattle.smm_base.specs.Status.{status_text, status_named};
ghost use Rattle.smm_base.specs.declared.status.Status.{Status as StatusSpec};

use std::fmt;

/// The status of a call, a handler or a walk, by the names of UEFI's status codes (UEFI Specification,
/// appendix "Status Codes") and of the answers of handlers in UEFI PI Volume 4.
#[derive(Clone, Copy, Debug, PartialEq, Eq)]
pub enum Status {
    /// It did what was asked.
    Success,
    /// An argument is wrong.
    InvalidParameter,
    /// The register may not be written, or not in this way.
    Unsupported,
    /// It can't be answered now; it may be later.
    NotReady,
    /// There is no room left.
    OutOfResources,
    /// A walk over handlers stood too deep.
    AccessDenied,
    /// What was named is not there.
    NotFound,
    /// The time that was given ran out.
    Timeout,
    /// The walk was ended before its handlers were done.
    Aborted,
    /// A handler's answer: the interrupt could not be quiesced (EFI_INTERRUPT_PENDING).
    InterruptPending,
    /// A handler's answer: the source may still have an interrupt pending
    /// (EFI_WARN_INTERRUPT_SOURCE_PENDING).
    SourcePending,
    /// A handler's answer: the source is quiesced, and other handlers are still called
    /// (EFI_WARN_INTERRUPT_SOURCE_QUIESCED).
    SourceQuiesced,
}

/// Each status once.
pub static STATUSES: [Status; 12] = [
    Status::Success,
    Status::InvalidParameter,
    Status::Unsupported,
    Status::NotReady,
    Status::OutOfResources,
    Status::AccessDenied,
    Status::NotFound,
    Status::Timeout,
    Status::Aborted,
    Status::InterruptPending,
    Status::SourcePending,
    Status::SourceQuiesced,
];

impl Status {
    /// The printed name: the variant's words in capitals with underscores.
    pub fn name(self) -> &'static str
        ensures { result.now ≡ status_text self }
    {
        match self {
            Status::Success => "SUCCESS",
            Status::InvalidParameter => "INVALID_PARAMETER",
            Status::Unsupported => "UNSUPPORTED",
            Status::NotReady => "NOT_READY",
            Status::OutOfResources => "OUT_OF_RESOURCES",
            Status::AccessDenied => "ACCESS_DENIED",
            Status::NotFound => "NOT_FOUND",
            Status::Timeout => "TIMEOUT",
            Status::Aborted => "ABORTED",
            Status::InterruptPending => "INTERRUPT_PENDING",
            Status::SourcePending => "SOURCE_PENDING",
            Status::SourceQuiesced => "SOURCE_QUIESCED",
        }
    }

    /// The status with this printed name, where there is one.
    pub fn named(text: &str) -> Option<Status>
        ensures { result ≡ status_named text.now }
    {
        STATUSES
            .iter()
            .copied()
            .find(|status| status.name() == text)
    }
}

/// Writes the name.
impl fmt::Display for Status {
    ghost output = { λ status. Some (status_text status) };

    fn fmt<W: fmt::Write>(&self, f: &mut fmt::Formatter<W>) -> fmt::Result {
        f.write_str(self.name())
    }
}

/// The laws of the statuses' names. It does nothing when it runs.
pub fn status_laws()
    // What is found has the name.
    ensures named { (text : List ℕ) → IfSome (status_named text) (λ status. status_text status ≡ text) }

    // Each status is found by its name, so no name stands for two of them.
    ensures names { (status : StatusSpec) → status_named (status_text status) ≡ Some status }
{}
