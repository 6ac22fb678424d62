use save_state_map::{FIELDS, MapKind};
use std::alloc::{AllocError, Global};
use std::fmt::Write;
use std::test::Fail;

// The Intel 64 map (Intel SDM Volume 3, "SMRAM State Save Map and Intel 64 Architecture"): a field, its first byte from
// SMBASE + 8000H, its width in bytes, and `w` where it may be written. The marks, and the places of `Cr4` and of the halves of
// the descriptor tables' bases, are the project's own.
const INTEL64: &str = "\
Cr0 7FF8 8\n\
Cr3 7FF0 8\n\
Rflags 7FE8 8 w\n\
Efer 7FE0 8 w\n\
Rip 7FD8 8 w\n\
Dr6 7FD0 8\n\
Dr7 7FC8 8\n\
Tr 7FC4 4\n\
Ldtr 7FC0 4\n\
Gs 7FBC 4\n\
Fs 7FB8 4\n\
Ds 7FB4 4\n\
Ss 7FB0 4\n\
Cs 7FAC 4\n\
Es 7FA8 4\n\
IoState 7FA4 4\n\
IoMemoryAddress 7F9C 8\n\
Rdi 7F94 8 w\n\
Rsi 7F8C 8 w\n\
Rbp 7F84 8 w\n\
Rsp 7F7C 8 w\n\
Rbx 7F74 8 w\n\
Rdx 7F6C 8 w\n\
Rcx 7F64 8 w\n\
Rax 7F5C 8 w\n\
R8 7F54 8 w\n\
R9 7F4C 8 w\n\
R10 7F44 8 w\n\
R11 7F3C 8 w\n\
R12 7F34 8 w\n\
R13 7F2C 8 w\n\
R14 7F24 8 w\n\
R15 7F1C 8 w\n\
AutoHalt 7F02 2 w\n\
IoRestart 7F00 2 w\n\
Revision 7EFC 4\n\
Smbase 7EF8 4 w\n\
LdtBaseLow 7E9C 4\n\
IdtBaseLow 7E94 4\n\
GdtBaseLow 7E8C 4\n\
Cr4 7E40 4\n\
IdtBaseHigh 7DD8 4\n\
LdtBaseHigh 7DD4 4\n\
GdtBaseHigh 7DD0 4\n\
";

// The 32-bit map (Intel SDM Volume 3, "SMRAM State Save Map") in the same form. The marks are the project's own.
const IA32: &str = "\
Cr0 7FFC 4\n\
Cr3 7FF8 4\n\
Rflags 7FF4 4 w\n\
Rip 7FF0 4 w\n\
Dr6 7FCC 4\n\
Dr7 7FC8 4\n\
Tr 7FC4 4\n\
Gs 7FBC 4\n\
Fs 7FB8 4\n\
Ds 7FB4 4\n\
Ss 7FB0 4\n\
Cs 7FAC 4\n\
Es 7FA8 4\n\
IoState 7FA4 4\n\
IoMemoryAddress 7FA0 4\n\
Rdi 7FEC 4 w\n\
Rsi 7FE8 4 w\n\
Rbp 7FE4 4 w\n\
Rsp 7FE0 4 w\n\
Rbx 7FDC 4 w\n\
Rdx 7FD8 4 w\n\
Rcx 7FD4 4 w\n\
Rax 7FD0 4 w\n\
AutoHalt 7F02 2 w\n\
IoRestart 7F00 2 w\n\
Revision 7EFC 4\n\
Smbase 7EF8 4 w\n\
";

// The rows of a map, whose image begins so far from SMBASE + 8000H.
fn rows_of(alloc: Global, kind: MapKind, start: usize) -> Result<String, AllocError> {
    let mut rows = String::new(alloc);
    for field in FIELDS.iter() {
        if let Some(place) = field.place(kind) {
            let at = place.offset.wrapping_add(start);
            let width = place.width;
            let mark = if field.is_writable() { " w" } else { "" };
            writeln!(rows, "{field:?} {at:04X} {width}{mark}")?;
        }
    }
    Ok(rows)
}

#[test]
fn each_field_stands_where_the_table_has_it(rt: HostRuntime) -> Result<(), Fail> {
    let rows = rows_of(rt.alloc(), MapKind::Intel64, 0x7C00)?;
    assert_eq!(rt; rows.as_str(), INTEL64);
    let rows = rows_of(rt.alloc(), MapKind::Ia32, 0x7E00)?;
    assert_eq!(rt; rows.as_str(), IA32);
    Ok(())
}
