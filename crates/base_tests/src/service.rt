use save_state_access::{Status, read_register, write_register};
use save_state_map::{Field, Image, MapKind, image_size};
use std::alloc::Global;
use std::fmt::Write;
use std::test::Fail;

const ZEROS: [u8; 1024] = [0; 1024];

// The map, the first and the last number, the register's width, and the statuses of a read and a write of zeros at this width
// and of a read and a write at one byte more, of a processor that is present.
const PRESENT: &str = "\
intel64 0 3 4 NOT_FOUND NOT_FOUND NOT_FOUND NOT_FOUND\n\
intel64 4 6 8 SUCCESS UNSUPPORTED INVALID_PARAMETER UNSUPPORTED\n\
intel64 7 19 4 NOT_FOUND NOT_FOUND NOT_FOUND NOT_FOUND\n\
intel64 20 27 4 SUCCESS UNSUPPORTED INVALID_PARAMETER UNSUPPORTED\n\
intel64 28 29 8 SUCCESS UNSUPPORTED INVALID_PARAMETER UNSUPPORTED\n\
intel64 30 46 8 SUCCESS SUCCESS INVALID_PARAMETER INVALID_PARAMETER\n\
intel64 47 50 4 NOT_FOUND NOT_FOUND NOT_FOUND NOT_FOUND\n\
intel64 51 51 8 SUCCESS SUCCESS INVALID_PARAMETER INVALID_PARAMETER\n\
intel64 52 53 8 SUCCESS UNSUPPORTED INVALID_PARAMETER UNSUPPORTED\n\
intel64 54 54 4 SUCCESS UNSUPPORTED INVALID_PARAMETER UNSUPPORTED\n\
intel64 55 60 4 NOT_FOUND NOT_FOUND NOT_FOUND NOT_FOUND\n\
intel64 512 512 24 NOT_FOUND NOT_FOUND INVALID_PARAMETER NOT_FOUND\n\
intel64 513 513 1 SUCCESS SUCCESS INVALID_PARAMETER SUCCESS\n\
intel64 514 514 8 SUCCESS SUCCESS INVALID_PARAMETER SUCCESS\n\
intel64 1024 1025 2 SUCCESS SUCCESS INVALID_PARAMETER INVALID_PARAMETER\n\
ia32 0 19 4 NOT_FOUND NOT_FOUND NOT_FOUND NOT_FOUND\n\
ia32 20 25 4 SUCCESS UNSUPPORTED INVALID_PARAMETER UNSUPPORTED\n\
ia32 26 26 4 NOT_FOUND NOT_FOUND NOT_FOUND NOT_FOUND\n\
ia32 27 29 4 SUCCESS UNSUPPORTED INVALID_PARAMETER UNSUPPORTED\n\
ia32 30 37 4 NOT_FOUND NOT_FOUND NOT_FOUND NOT_FOUND\n\
ia32 38 46 4 SUCCESS SUCCESS INVALID_PARAMETER INVALID_PARAMETER\n\
ia32 51 51 4 SUCCESS SUCCESS INVALID_PARAMETER INVALID_PARAMETER\n\
ia32 52 53 4 SUCCESS UNSUPPORTED INVALID_PARAMETER UNSUPPORTED\n\
ia32 54 54 4 NOT_FOUND NOT_FOUND NOT_FOUND NOT_FOUND\n\
ia32 512 512 24 NOT_FOUND NOT_FOUND INVALID_PARAMETER NOT_FOUND\n\
ia32 513 513 1 SUCCESS SUCCESS INVALID_PARAMETER SUCCESS\n\
ia32 514 514 8 SUCCESS SUCCESS INVALID_PARAMETER SUCCESS\n\
ia32 1024 1025 2 SUCCESS SUCCESS INVALID_PARAMETER INVALID_PARAMETER\n\
";

// The same of a processor that is not present.
const NOT_PRESENT: &str = "\
intel64 514 514 8 NOT_FOUND SUCCESS NOT_FOUND SUCCESS\n\
intel64 513 513 1 INVALID_PARAMETER INVALID_PARAMETER INVALID_PARAMETER INVALID_PARAMETER\n\
intel64 512 512 24 INVALID_PARAMETER INVALID_PARAMETER INVALID_PARAMETER INVALID_PARAMETER\n\
intel64 38 38 8 INVALID_PARAMETER INVALID_PARAMETER INVALID_PARAMETER INVALID_PARAMETER\n\
intel64 7 7 8 INVALID_PARAMETER INVALID_PARAMETER INVALID_PARAMETER INVALID_PARAMETER\n\
";

// A number, and what is read of it from the image below in hexadecimal digits: the answer of IO (one byte by OUT immediate to
// the port B2H), the mode, the base of the GDT, and the id 102H.
const READS: &str = "\
512 5100000000000000b2000000000000000200000000000000\n\
513 40\n\
4 1122334455667788\n\
514 0201000000000000\n\
";

const NUMBERS: [(Field, u64); 6] = [
    (Field::Revision, 0x3_0004),
    (Field::IoState, 0x00B2_0083),
    (Field::Rax, 0x51),
    (Field::Efer, 0x400),
    (Field::GdtBaseLow, 0x4433_2211),
    (Field::GdtBaseHigh, 0x8877_6655),
];

// What reading and writing zeros of this width answers, or of one byte more.
fn answers(image: &Image, present: bool, reg: u32, width: usize, more: bool) -> (Status, Status) {
    let width = width.min(24) + usize::from(more);
    let mut out = [0; 32];
    let zeros = [0; 32];
    let mut written = *image;
    let read = read_register(image, present, 7, reg, &mut out[..width]);
    let write = write_register(&mut written, present, reg, &zeros[..width]);
    (read, write)
}

// One row of the tables.
#[derive(Clone, Copy)]
struct Row<'a> {
    kind: MapKind,
    first: u32,
    last: u32,
    width: usize,
    statuses: &'a str,
}

fn row_of(text: &str) -> Option<Row<'_>> {
    let (kind, rest) = text.split_once(' ')?;
    let (first, rest) = rest.split_once(' ')?;
    let (last, rest) = rest.split_once(' ')?;
    let (width, statuses) = rest.split_once(' ')?;
    Some(Row {
        kind: if kind == "ia32" {
            MapKind::Ia32
        } else {
            MapKind::Intel64
        },
        first: first.parse().ok()?,
        last: last.parse().ok()?,
        width: width.parse().ok()?,
        statuses,
    })
}

// The rows of a table that answer otherwise, with what they answer.
fn wrong_rows(alloc: Global, table: &str, present: bool) -> Result<String, Fail> {
    let mut wrong = String::new(alloc);
    for text in table.lines() {
        let Some(row) = row_of(text) else {
            writeln!(wrong, "{text}")?;
            continue;
        };
        let image = Image::new(row.kind, &ZEROS[..image_size(row.kind)])?;
        for reg in row.first..=row.last {
            let (read, write) = answers(&image, present, reg, row.width, false);
            let (more_read, more_write) = answers(&image, present, reg, row.width, true);
            let told = format!(in alloc; "{read} {write} {more_read} {more_write}")?;
            if told.as_str() != row.statuses {
                writeln!(wrong, "{text}: {reg} {told}")?;
            }
        }
    }
    Ok(wrong)
}

#[test]
fn each_register_has_its_answers(rt: HostRuntime) -> Result<(), Fail> {
    let wrong = wrong_rows(rt.alloc(), PRESENT, true)?;
    assert_eq!(rt; wrong.as_str(), "");
    let wrong = wrong_rows(rt.alloc(), NOT_PRESENT, false)?;
    assert_eq!(rt; wrong.as_str(), "");
    Ok(())
}

#[test]
fn what_is_read(rt: HostRuntime) -> Result<(), Fail> {
    let mut image = Image::new(MapKind::Intel64, &ZEROS)?;
    for (field, number) in NUMBERS.iter() {
        assert!(rt; image.set_field(*field, *number));
    }
    for row in READS.lines() {
        let Some((reg, digits)) = row.split_once(' ') else {
            continue;
        };
        let mut out = [0; 32];
        let width = (digits.len() / 2).min(32);
        let status = read_register(&image, true, 0x0102, reg.parse()?, &mut out[..width]);
        assert_eq!(rt; status, Status::Success, "{row}");
        let mut told = String::new(rt.alloc());
        for byte in &out[..width] {
            write!(told, "{byte:02x}")?;
        }
        assert_eq!(rt; told.as_str(), digits, "{row}");
    }
    Ok(())
}
