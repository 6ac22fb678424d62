ghost use Rattle.std.specs.Prelude.{◌≡◌, ℕ, List, Some, IfSome};
ghost use Rattle.smm_base.specs.Register.{register_number, register_text, register_named, register_numbered};
ghost use Rattle.smm_base.specs.declared.registers.Register.{Register as RegisterSpec};

use std::fmt;

/// A register of the CPU save-state service, by its name in UEFI PI Volume 4 (EFI_MM_SAVE_STATE_REGISTER
/// of EFI_MM_CPU_PROTOCOL). The last two are this project's own.
#[derive(Clone, Copy, Debug, PartialEq, Eq)]
pub enum Register {
    /// The base address of the GDT.
    GdtBase,
    /// The base address of the IDT.
    IdtBase,
    /// The base address of the LDT.
    LdtBase,
    /// The limit of the GDT. No map here has it.
    GdtLimit,
    /// The limit of the IDT. No map here has it.
    IdtLimit,
    /// The limit of the LDT. No map here has it.
    LdtLimit,
    /// The attributes of the LDT. No map here has it.
    LdtInfo,
    Es,
    Cs,
    Ss,
    Ds,
    Fs,
    Gs,
    /// The selector in LDTR.
    LdtrSel,
    /// The selector in TR.
    TrSel,
    Dr7,
    Dr6,
    R8,
    R9,
    R10,
    R11,
    R12,
    R13,
    R14,
    R15,
    Rax,
    Rbx,
    Rcx,
    Rdx,
    Rsp,
    Rbp,
    Rsi,
    Rdi,
    Rip,
    Rflags,
    Cr0,
    Cr3,
    Cr4,
    /// The I/O instruction that the interrupt came at: 24 bytes of answer, not a field.
    Io,
    /// The processor's mode, 32 or 64, as one byte.
    Lma,
    /// The processor's id, as eight bytes.
    ProcessorId,
    /// The Auto HALT restart word: the project's own number.
    AutoHalt,
    /// The I/O instruction restart word: the project's own number.
    IoRestart,
}

/// Each register once, in the order of their numbers.
pub static REGISTERS: [Register; 43] = [
    Register::GdtBase,
    Register::IdtBase,
    Register::LdtBase,
    Register::GdtLimit,
    Register::IdtLimit,
    Register::LdtLimit,
    Register::LdtInfo,
    Register::Es,
    Register::Cs,
    Register::Ss,
    Register::Ds,
    Register::Fs,
    Register::Gs,
    Register::LdtrSel,
    Register::TrSel,
    Register::Dr7,
    Register::Dr6,
    Register::R8,
    Register::R9,
    Register::R10,
    Register::R11,
    Register::R12,
    Register::R13,
    Register::R14,
    Register::R15,
    Register::Rax,
    Register::Rbx,
    Register::Rcx,
    Register::Rdx,
    Register::Rsp,
    Register::Rbp,
    Register::Rsi,
    Register::Rdi,
    Register::Rip,
    Register::Rflags,
    Register::Cr0,
    Register::Cr3,
    Register::Cr4,
    Register::Io,
    Register::Lma,
    Register::ProcessorId,
    Register::AutoHalt,
    Register::IoRestart,
];

impl Register {
    /// The register's number in UEFI PI Volume 4, or 1024 and 1025 of this project's own.
    pub fn number(self) -> u32
        ensures { result ≡ register_number self }
    {
        match self {
            Register::GdtBase => 4,
            Register::IdtBase => 5,
            Register::LdtBase => 6,
            Register::GdtLimit => 7,
            Register::IdtLimit => 8,
            Register::LdtLimit => 9,
            Register::LdtInfo => 10,
            Register::Es => 20,
            Register::Cs => 21,
            Register::Ss => 22,
            Register::Ds => 23,
            Register::Fs => 24,
            Register::Gs => 25,
            Register::LdtrSel => 26,
            Register::TrSel => 27,
            Register::Dr7 => 28,
            Register::Dr6 => 29,
            Register::R8 => 30,
            Register::R9 => 31,
            Register::R10 => 32,
            Register::R11 => 33,
            Register::R12 => 34,
            Register::R13 => 35,
            Register::R14 => 36,
            Register::R15 => 37,
            Register::Rax => 38,
            Register::Rbx => 39,
            Register::Rcx => 40,
            Register::Rdx => 41,
            Register::Rsp => 42,
            Register::Rbp => 43,
            Register::Rsi => 44,
            Register::Rdi => 45,
            Register::Rip => 46,
            Register::Rflags => 51,
            Register::Cr0 => 52,
            Register::Cr3 => 53,
            Register::Cr4 => 54,
            Register::Io => 512,
            Register::Lma => 513,
            Register::ProcessorId => 514,
            Register::AutoHalt => 1024,
            Register::IoRestart => 1025,
        }
    }

    /// The printed name.
    pub fn name(self) -> &'static str
        ensures { result.now ≡ register_text self }
    {
        match self {
            Register::GdtBase => "GDTBASE",
            Register::IdtBase => "IDTBASE",
            Register::LdtBase => "LDTBASE",
            Register::GdtLimit => "GDTLIMIT",
            Register::IdtLimit => "IDTLIMIT",
            Register::LdtLimit => "LDTLIMIT",
            Register::LdtInfo => "LDTINFO",
            Register::Es => "ES",
            Register::Cs => "CS",
            Register::Ss => "SS",
            Register::Ds => "DS",
            Register::Fs => "FS",
            Register::Gs => "GS",
            Register::LdtrSel => "LDTR_SEL",
            Register::TrSel => "TR_SEL",
            Register::Dr7 => "DR7",
            Register::Dr6 => "DR6",
            Register::R8 => "R8",
            Register::R9 => "R9",
            Register::R10 => "R10",
            Register::R11 => "R11",
            Register::R12 => "R12",
            Register::R13 => "R13",
            Register::R14 => "R14",
            Register::R15 => "R15",
            Register::Rax => "RAX",
            Register::Rbx => "RBX",
            Register::Rcx => "RCX",
            Register::Rdx => "RDX",
            Register::Rsp => "RSP",
            Register::Rbp => "RBP",
            Register::Rsi => "RSI",
            Register::Rdi => "RDI",
            Register::Rip => "RIP",
            Register::Rflags => "RFLAGS",
            Register::Cr0 => "CR0",
            Register::Cr3 => "CR3",
            Register::Cr4 => "CR4",
            Register::Io => "IO",
            Register::Lma => "LMA",
            Register::ProcessorId => "PROCESSOR_ID",
            Register::AutoHalt => "AUTO_HALT",
            Register::IoRestart => "IO_RESTART",
        }
    }

    /// The register with this number, where there is one.
    pub fn numbered(number: u32) -> Option<Register>
        ensures { result ≡ register_numbered number }
    {
        REGISTERS
            .iter()
            .copied()
            .find(|register| register.number() == number)
    }

    /// The register with this printed name, where there is one.
    pub fn named(text: &str) -> Option<Register>
        ensures { result ≡ register_named text.now }
    {
        REGISTERS
            .iter()
            .copied()
            .find(|register| register.name() == text)
    }
}

/// Writes the name.
impl fmt::Display for Register {
    ghost output = { λ register. Some (register_text register) };

    fn fmt<W: fmt::Write>(&self, f: &mut fmt::Formatter<W>) -> fmt::Result {
        f.write_str(self.name())
    }
}

/// The laws of the list of registers. It does nothing when it runs.
pub fn register_laws()
    // What is found has the number, or the name.
    ensures numbered { (number : ℕ) → IfSome (register_numbered number) (λ register. register_number register ≡ number) }
    ensures named { (text : List ℕ) → IfSome (register_named text) (λ register. register_text register ≡ text) }

    // Each register is found by its number, so no number stands for two of them.
    ensures numbers { (register : RegisterSpec) → register_numbered (register_number register) ≡ Some register }

    // Each register is found by its name, so no name stands for two of them.
    ensures names { (register : RegisterSpec) → register_named (register_text register) ≡ Some register }
{}
