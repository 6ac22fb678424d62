ghost use Rattle.std.specs.Prelude.{◌≡◌, ◌+◌, ◌≤◌, ◌||◌, ◌==◌, ◌<◌, length, slice_get, Some, IfSome, IsTrue};
ghost use Rattle.save_state_map.specs.Fields.{intel64_row, ia32_row, field_index, field_place, image_length, is_writable};

use smm_base::MapKind;

/// A field of a save-state map. A field that both maps have under one meaning is one variant, also
/// where it is narrower in the 32-bit map: `Rax` is EAX there, `Rflags` EFLAGS and `Rip` EIP. The 32-bit map has
/// 27 of these fields, the Intel 64 map all 44.
#[derive(Clone, Copy, Debug, PartialEq, Eq)]
pub enum Field {
    /// CR0.
    Cr0,
    /// CR3.
    Cr3,
    /// RFLAGS; EFLAGS in the 32-bit map.
    Rflags,
    /// IA32_EFER. Intel 64 map only.
    Efer,
    /// RIP; EIP in the 32-bit map.
    Rip,
    /// DR6.
    Dr6,
    /// DR7.
    Dr7,
    /// TR.
    Tr,
    /// LDTR. Intel 64 map only.
    Ldtr,
    /// GS.
    Gs,
    /// FS.
    Fs,
    /// DS.
    Ds,
    /// SS.
    Ss,
    /// CS.
    Cs,
    /// ES.
    Es,
    /// The I/O state (IO_MISC).
    IoState,
    /// The I/O memory address (IO_MEM_ADDR).
    IoMemoryAddress,
    /// RDI; EDI in the 32-bit map.
    Rdi,
    /// RSI; ESI in the 32-bit map.
    Rsi,
    /// RBP; EBP in the 32-bit map.
    Rbp,
    /// RSP; ESP in the 32-bit map.
    Rsp,
    /// RBX; EBX in the 32-bit map.
    Rbx,
    /// RDX; EDX in the 32-bit map.
    Rdx,
    /// RCX; ECX in the 32-bit map.
    Rcx,
    /// RAX; EAX in the 32-bit map.
    Rax,
    /// R8. Intel 64 map only.
    R8,
    /// R9. Intel 64 map only.
    R9,
    /// R10. Intel 64 map only.
    R10,
    /// R11. Intel 64 map only.
    R11,
    /// R12. Intel 64 map only.
    R12,
    /// R13. Intel 64 map only.
    R13,
    /// R14. Intel 64 map only.
    R14,
    /// R15. Intel 64 map only.
    R15,
    /// Auto HALT restart.
    AutoHalt,
    /// I/O instruction restart.
    IoRestart,
    /// The SMM revision identifier.
    Revision,
    /// SMBASE.
    Smbase,
    /// The low half of the LDT's base. Intel 64 map only.
    LdtBaseLow,
    /// The low half of the IDT's base. Intel 64 map only.
    IdtBaseLow,
    /// The low half of the GDT's base. Intel 64 map only.
    GdtBaseLow,
    /// CR4. Intel 64 map only.
    Cr4,
    /// The high half of the IDT's base. Intel 64 map only.
    IdtBaseHigh,
    /// The high half of the LDT's base. Intel 64 map only.
    LdtBaseHigh,
    /// The high half of the GDT's base. Intel 64 map only.
    GdtBaseHigh,
}

/// Where a field stands in an image.
#[derive(Clone, Copy, PartialEq, Eq)]
pub struct Place {
    /// The field's first byte, counted from the image's first byte.
    pub offset: usize,
    /// How many bytes it has: 2, 4 or 8.
    pub width: usize,
}

/// Each field once.
pub static FIELDS: [Field; 44] = [
    Field::Cr0,
    Field::Cr3,
    Field::Rflags,
    Field::Efer,
    Field::Rip,
    Field::Dr6,
    Field::Dr7,
    Field::Tr,
    Field::Ldtr,
    Field::Gs,
    Field::Fs,
    Field::Ds,
    Field::Ss,
    Field::Cs,
    Field::Es,
    Field::IoState,
    Field::IoMemoryAddress,
    Field::Rdi,
    Field::Rsi,
    Field::Rbp,
    Field::Rsp,
    Field::Rbx,
    Field::Rdx,
    Field::Rcx,
    Field::Rax,
    Field::R8,
    Field::R9,
    Field::R10,
    Field::R11,
    Field::R12,
    Field::R13,
    Field::R14,
    Field::R15,
    Field::AutoHalt,
    Field::IoRestart,
    Field::Revision,
    Field::Smbase,
    Field::LdtBaseLow,
    Field::IdtBaseLow,
    Field::GdtBaseLow,
    Field::Cr4,
    Field::IdtBaseHigh,
    Field::LdtBaseHigh,
    Field::GdtBaseHigh,
];

impl Field {
    /// The field's place in [`FIELDS`].
    pub fn index(self) -> usize
        ensures index { result ≡ field_index self }
        ensures listed { slice_get FIELDS result ≡ Some self }
        ensures within { result < length FIELDS }
    {
        self as usize
    }

    /// Where the field stands in an image of this map, or `None` where the map hasn't the field. The
    /// offsets are those of Intel SDM Volume 3, System Management Mode, but for the rows of
    /// LDT, IDT and GDT base and of CR4, which are this project's own.
    pub fn place(self, kind: MapKind) -> Option<Place>
        ensures table { result ≡ field_place kind self }
        ensures within { IfSome result (λ place. place.offset + place.width ≤ image_length kind) }
        ensures width { IfSome result (λ place. IsTrue (place.width == 2 || place.width == 4 || place.width == 8)) }
    {
        match kind {
            MapKind::Ia32 => {
                let (offset, width) = ia32_row_of(self)?;
                Some(Place {
                    offset: offset - 0x7E00,
                    width,
                })
            }
            MapKind::Intel64 => {
                let (offset, width) = intel64_row_of(self);
                Some(Place {
                    offset: offset - 0x7C00,
                    width,
                })
            }
        }
    }

    /// Whether a handler may write the field. SMBASE is written by relocation alone, but counts as
    /// a field that may be written. This is the project's own choice.
    pub fn is_writable(self) -> bool
        ensures { result ≡ is_writable self }
    {
        matches!(
            self,
            Field::Rflags
                | Field::Efer
                | Field::Rip
                | Field::Rdi
                | Field::Rsi
                | Field::Rbp
                | Field::Rsp
                | Field::Rbx
                | Field::Rdx
                | Field::Rcx
                | Field::Rax
                | Field::R8
                | Field::R9
                | Field::R10
                | Field::R11
                | Field::R12
                | Field::R13
                | Field::R14
                | Field::R15
                | Field::AutoHalt
                | Field::IoRestart
                | Field::Smbase
        )
    }
}

// The Intel 64 map: the offset from SMBASE + 8000H, and the width in bytes.
fn intel64_row_of(field: Field) -> (usize, usize)
    ensures table { result ≡ intel64_row field }
    ensures within { (0x7C00 ≤ result.0) × (result.0 + result.1 ≤ 0x8000) }
    ensures width { IsTrue (result.1 == 2 || result.1 == 4 || result.1 == 8) }
{
    match field {
        Field::Cr0 => (0x7FF8, 8),
        Field::Cr3 => (0x7FF0, 8),
        Field::Rflags => (0x7FE8, 8),
        Field::Efer => (0x7FE0, 8),
        Field::Rip => (0x7FD8, 8),
        Field::Dr6 => (0x7FD0, 8),
        Field::Dr7 => (0x7FC8, 8),
        Field::Tr => (0x7FC4, 4),
        Field::Ldtr => (0x7FC0, 4),
        Field::Gs => (0x7FBC, 4),
        Field::Fs => (0x7FB8, 4),
        Field::Ds => (0x7FB4, 4),
        Field::Ss => (0x7FB0, 4),
        Field::Cs => (0x7FAC, 4),
        Field::Es => (0x7FA8, 4),
        Field::IoState => (0x7FA4, 4),
        Field::IoMemoryAddress => (0x7F9C, 8),
        Field::Rdi => (0x7F94, 8),
        Field::Rsi => (0x7F8C, 8),
        Field::Rbp => (0x7F84, 8),
        Field::Rsp => (0x7F7C, 8),
        Field::Rbx => (0x7F74, 8),
        Field::Rdx => (0x7F6C, 8),
        Field::Rcx => (0x7F64, 8),
        Field::Rax => (0x7F5C, 8),
        Field::R8 => (0x7F54, 8),
        Field::R9 => (0x7F4C, 8),
        Field::R10 => (0x7F44, 8),
        Field::R11 => (0x7F3C, 8),
        Field::R12 => (0x7F34, 8),
        Field::R13 => (0x7F2C, 8),
        Field::R14 => (0x7F24, 8),
        Field::R15 => (0x7F1C, 8),
        Field::AutoHalt => (0x7F02, 2),
        Field::IoRestart => (0x7F00, 2),
        Field::Revision => (0x7EFC, 4),
        Field::Smbase => (0x7EF8, 4),
        Field::LdtBaseLow => (0x7E9C, 4),
        Field::IdtBaseLow => (0x7E94, 4),
        Field::GdtBaseLow => (0x7E8C, 4),
        Field::Cr4 => (0x7E40, 4),
        Field::IdtBaseHigh => (0x7DD8, 4),
        Field::LdtBaseHigh => (0x7DD4, 4),
        Field::GdtBaseHigh => (0x7DD0, 4),
    }
}

// The 32-bit map: the offset from SMBASE + 8000H, and the width in bytes.
fn ia32_row_of(field: Field) -> Option<(usize, usize)>
    ensures table { result ≡ ia32_row field }
    ensures within { IfSome result (λ row. (0x7E00 ≤ row.0) × (row.0 + row.1 ≤ 0x8000)) }
    ensures width { IfSome result (λ row. IsTrue (row.1 == 2 || row.1 == 4 || row.1 == 8)) }
{
    let row = match field {
        Field::Cr0 => (0x7FFC, 4),
        Field::Cr3 => (0x7FF8, 4),
        Field::Rflags => (0x7FF4, 4),
        Field::Rip => (0x7FF0, 4),
        Field::Dr6 => (0x7FCC, 4),
        Field::Dr7 => (0x7FC8, 4),
        Field::Tr => (0x7FC4, 4),
        Field::Gs => (0x7FBC, 4),
        Field::Fs => (0x7FB8, 4),
        Field::Ds => (0x7FB4, 4),
        Field::Ss => (0x7FB0, 4),
        Field::Cs => (0x7FAC, 4),
        Field::Es => (0x7FA8, 4),
        Field::IoState => (0x7FA4, 4),
        Field::IoMemoryAddress => (0x7FA0, 4),
        Field::Rdi => (0x7FEC, 4),
        Field::Rsi => (0x7FE8, 4),
        Field::Rbp => (0x7FE4, 4),
        Field::Rsp => (0x7FE0, 4),
        Field::Rbx => (0x7FDC, 4),
        Field::Rdx => (0x7FD8, 4),
        Field::Rcx => (0x7FD4, 4),
        Field::Rax => (0x7FD0, 4),
        Field::AutoHalt => (0x7F02, 2),
        Field::IoRestart => (0x7F00, 2),
        Field::Revision => (0x7EFC, 4),
        Field::Smbase => (0x7EF8, 4),
        Field::Efer
        | Field::Ldtr
        | Field::R8
        | Field::R9
        | Field::R10
        | Field::R11
        | Field::R12
        | Field::R13
        | Field::R14
        | Field::R15
        | Field::LdtBaseLow
        | Field::IdtBaseLow
        | Field::GdtBaseLow
        | Field::Cr4
        | Field::IdtBaseHigh
        | Field::LdtBaseHigh
        | Field::GdtBaseHigh => return None,
    };
    Some(row)
}
