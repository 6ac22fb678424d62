ghost use Rattle.std.specs.Prelude.{◌≡◌, ◌||◌, ℕ, List, IsTrue, Some, IfSome};
ghost use Rattle.std.specs.Fmt.{WritesOnOk};
ghost use Rattle.sync_words.specs.Groups.{is_of_service, is_of_procedure, is_served};
ghost use Rattle.sync_words.specs.Texts.{cause_text, cause_named, label_text};
ghost use Rattle.sync_words.specs.declared.label.StartRefusal.{StartRefusal as StartRefusalSpec};

use smm_base::{After, HandlerType, Register, Status};
use std::fmt;

/// Why the start of a procedure was refused, in the order in which the causes are tested.
#[derive(Clone, Copy, Debug, PartialEq, Eq)]
pub enum StartRefusal {
    /// There is no such processor.
    OutOfRange,
    /// It is the boot processor itself.
    BootProcessor,
    /// The platform has no such procedure.
    UnknownProcedure,
    /// No more tokens.
    Tokens,
    /// The processor has a job that isn't finished.
    Busy,
    /// The processor hasn't reported.
    Absent,
}

/// Each cause once, in the order in which they are tested.
pub static CAUSES: [StartRefusal; 6] = [
    StartRefusal::OutOfRange,
    StartRefusal::BootProcessor,
    StartRefusal::UnknownProcedure,
    StartRefusal::Tokens,
    StartRefusal::Busy,
    StartRefusal::Absent,
];

impl StartRefusal {
    /// The printed word.
    pub fn name(self) -> &'static str
        ensures { result.now ≡ cause_text self }
    {
        match self {
            StartRefusal::OutOfRange => "range",
            StartRefusal::BootProcessor => "self",
            StartRefusal::UnknownProcedure => "unknown",
            StartRefusal::Tokens => "tokens",
            StartRefusal::Busy => "busy",
            StartRefusal::Absent => "absent",
        }
    }

    /// The cause with this printed word, where there is one.
    pub fn named(text: &str) -> Option<StartRefusal>
        ensures { result ≡ cause_named text.now }
    {
        CAUSES.iter().copied().find(|cause| cause.name() == text)
    }
}

/// Writes the cause's word.
impl fmt::Display for StartRefusal {
    ghost output = { λ cause. Some (cause_text cause) };

    fn fmt<W: fmt::Write>(&self, f: &mut fmt::Formatter<W>) -> fmt::Result {
        f.write_str(self.name())
    }
}

/// The laws of the causes' words. It does nothing when it runs.
pub fn cause_laws()
    // What is found has the word.
    ensures named { (text : List ℕ) → IfSome (cause_named text) (λ cause. cause_text cause ≡ text) }

    // Each cause is found by its word, so no word stands for two of them.
    ensures names { (cause : StartRefusalSpec) → cause_named (cause_text cause) ≡ Some cause }
{}

/// What an event says. A number is that of the label's text; `cpu` is a processor's number, a handler and a
/// procedure stand by their places in the platform file, jobs are numbered from 1 in the session.
#[derive(Clone, Copy, Debug, PartialEq, Eq)]
pub enum Label {
    /// Nothing: printed as `-`.
    Silent,
    /// The chipset announced how many processors the next wave blocks.
    Excepted(u32),
    /// The chipset announced the wave with this number, from 1.
    Wave(u32),
    /// A processor took its interrupt and saved its state: a visit begins.
    Enter,
    /// The processor turned back, since no wave asks for it.
    Turn,
    /// The processor counted itself in.
    Arrive,
    /// The processor came after the session was closed.
    Late,
    /// The processor became the boot processor: a session begins.
    Elect,
    /// The boot processor took the wave with this number, 0 where there is none.
    Served(u32),
    /// The boot processor read how many processors the wave announced as blocked.
    Gather(u32),
    /// With this many counted in, the boot processor waits for no more.
    Ready(u32),
    /// The time of waiting ran out: the first round, or the second.
    Expire(u32),
    /// A processor gave up waiting for the boot processor, and took itself from the count.
    Quit,
    /// A processor that isn't the boot processor (AP) reported, and gave its desk.
    Report,
    /// The boot processor locked the counter, which had this number.
    Close(u32),
    /// Serving of the wave with this number begins, 0 where there is none.
    Begin(u32),
    /// A walk over the handlers of a list begins (UEFI PI Volume 4, `MmiManage`).
    Manage(HandlerType),
    /// A walk that would have been the fifth level.
    Deep(HandlerType),
    /// A handler by its place in the platform file is called.
    Call(u16),
    /// The handler answered.
    Return {
        handler: u16,
        status: Status,
    },
    /// The walk has this answer.
    Answer(Status),
    /// A variable, 0 to 7, was given a value.
    Set {
        variable: u8,
        value: u64,
    },
    /// A saved register was read (UEFI PI Volume 4, `EFI_MM_CPU_PROTOCOL.ReadSaveState`): the first 8 bytes of
    /// `width`, or 0.
    Read {
        cpu: u16,
        register: Register,
        width: u32,
        value: u64,
        status: Status,
    },
    /// A saved register was written (`EFI_MM_CPU_PROTOCOL.WriteSaveState`): the low `width` bytes of the value.
    Write {
        cpu: u16,
        register: Register,
        width: u32,
        value: u64,
        status: Status,
    },
    /// It was asked whether a launched job is done.
    Check {
        job: u64,
        status: Status,
    },
    /// A launched job was waited for; `result_value` is its result, or 0.
    Wait {
        job: u64,
        result_value: u64,
        status: Status,
    },
    /// A block of so many bytes was asked for; `place` is its address, or 0.
    Alloc {
        size: u64,
        place: u64,
        status: Status,
    },
    /// The block at an address was given back.
    Free {
        place: u64,
        status: Status,
    },
    /// A handler was registered; `serial` is the number of the registration, or 0.
    Register {
        handler: u16,
        serial: u32,
        status: Status,
    },
    /// A registration was ended.
    Unregister {
        handle: u64,
        status: Status,
    },
    /// The start of a procedure was refused.
    Refuse {
        cpu: u16,
        cause: StartRefusal,
    },
    /// A job was given to a processor: the procedure with its argument.
    Start {
        cpu: u16,
        job: u32,
        procedure: u16,
        arg: u64,
    },
    /// A processor ran its job.
    Run {
        job: u32,
        result_value: u64,
        status: Status,
    },
    /// The boot processor took a processor's desk, whose job was run.
    Collect(u16),
    /// The session has used all its units of serving.
    Spent,
    /// The handlers are done.
    Done,
    /// The boot processor let a processor go on its way out.
    Release(u16),
    /// A processor that isn't the boot processor leaves the session.
    Depart,
    /// The session ends.
    End,
    /// The processor loaded its state, and goes on so.
    Resume(After),
    /// The actor is off, and does nothing more.
    Off,
}

/// Writes the label's word, and its numbers and names with a colon before each.
impl fmt::Display for Label {
    ghost output = { λ label. Some (label_text label) };

    fn fmt<W: fmt::Write>(&self, f: &mut fmt::Formatter<W>) -> fmt::Result {
        match self {
            Label::Silent => f.write_str("-"),
            Label::Excepted(count) => write!(f, "excepted:{count}"),
            Label::Wave(wave) => write!(f, "wave:{wave}"),
            Label::Enter => f.write_str("enter"),
            Label::Turn => f.write_str("turn"),
            Label::Arrive => f.write_str("arrive"),
            Label::Late => f.write_str("late"),
            Label::Elect => f.write_str("elect"),
            Label::Served(wave) => write!(f, "served:{wave}"),
            Label::Gather(count) => write!(f, "gather:{count}"),
            Label::Ready(count) => write!(f, "ready:{count}"),
            Label::Expire(round) => write!(f, "expire:{round}"),
            Label::Quit => f.write_str("quit"),
            Label::Report => f.write_str("report"),
            Label::Close(count) => write!(f, "close:{count}"),
            Label::Release(cpu) => write!(f, "release:{cpu}"),
            Label::Depart => f.write_str("depart"),
            Label::End => f.write_str("end"),
            Label::Resume(after) => write!(f, "resume:{after}"),
            Label::Off => f.write_str("off"),
            _ => self.write_served(f),
        }
    }
}

impl Label {
    // Writes a label of serving: of its walks, its procedures or its services.
    fn write_served<W: fmt::Write>(&self, f: &mut fmt::Formatter<W>) -> fmt::Result
        requires { IsTrue (is_served self.now) }
        ensures { WritesOnOk W.write_str_gives f.old result (label_text self.now) f.new }
    {
        match self {
            Label::Begin(wave) => write!(f, "begin:{wave}"),
            Label::Manage(kind) => write!(f, "manage:{kind}"),
            Label::Deep(kind) => write!(f, "deep:{kind}"),
            Label::Call(handler) => write!(f, "call:{handler}"),
            Label::Return { handler, status } => write!(f, "return:{handler}:{status}"),
            Label::Answer(status) => write!(f, "answer:{status}"),
            Label::Spent => f.write_str("spent"),
            Label::Done => f.write_str("done"),
            _ => self.write_procedure(f),
        }
    }

    // Writes a label of a procedure that is started, run and waited for, or of a service.
    fn write_procedure<W: fmt::Write>(&self, f: &mut fmt::Formatter<W>) -> fmt::Result
        requires { IsTrue (is_of_procedure self.now || is_of_service self.now) }
        ensures { WritesOnOk W.write_str_gives f.old result (label_text self.now) f.new }
    {
        match self {
            Label::Check { job, status } => write!(f, "check:{job}:{status}"),
            Label::Wait {
                job,
                result_value,
                status,
            } => write!(f, "wait:{job}:{result_value}:{status}"),
            Label::Refuse { cpu, cause } => write!(f, "refuse:{cpu}:{cause}"),
            Label::Start {
                cpu,
                job,
                procedure,
                arg,
            } => write!(f, "start:{cpu}:{job}:{procedure}:{arg}"),
            Label::Run {
                job,
                result_value,
                status,
            } => write!(f, "run:{job}:{result_value}:{status}"),
            Label::Collect(cpu) => write!(f, "collect:{cpu}"),
            _ => self.write_service(f),
        }
    }

    // Writes the label of a service that a handler calls.
    fn write_service<W: fmt::Write>(&self, f: &mut fmt::Formatter<W>) -> fmt::Result
        requires { IsTrue (is_of_service self.now) }
        ensures { WritesOnOk W.write_str_gives f.old result (label_text self.now) f.new }
    {
        match self {
            Label::Set { variable, value } => write!(f, "set:{variable}:{value}"),
            Label::Read {
                cpu,
                register,
                width,
                value,
                status,
            } => write!(f, "read:{cpu}:{register}:{width}:{value}:{status}"),
            Label::Write {
                cpu,
                register,
                width,
                value,
                status,
            } => write!(f, "write:{cpu}:{register}:{width}:{value}:{status}"),
            Label::Alloc {
                size,
                place,
                status,
            } => write!(f, "alloc:{size}:{place}:{status}"),
            Label::Free { place, status } => write!(f, "free:{place}:{status}"),
            Label::Register {
                handler,
                serial,
                status,
            } => write!(f, "register:{handler}:{serial}:{status}"),
            Label::Unregister { handle, status } => write!(f, "unregister:{handle}:{status}"),
            _ => unreachable!(),
        }
    }
}
