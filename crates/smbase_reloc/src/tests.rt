use super::*;
use cpu_regs::Regs;
use cpu_table::Smram;
use save_state_map::{Field, Image};
use smm_base::MapKind;
use std::test::Fail;

const AREA: Smram = Smram {
    base: 0x80000,
    size: 0x100000,
    tile: 0x800,
    code: 0x400,
};

#[test]
fn four_processors_lie_one_tile_apart(rt: HostRuntime) -> Result<(), Fail> {
    let long = Smram {
        code: 0x401,
        ..AREA
    };
    assert!(rt; layout(&long, 4) == Err(LayoutError::CodeTooLong(1025)));
    let four = layout(&AREA, 4)?;
    let places = [
        four.smbase(0),
        four.smbase(1),
        four.smbase(2),
        four.smbase(3),
        four.end(),
    ];
    assert_eq!(rt; places, [0x78000, 0x78800, 0x79000, 0x79800, 0x89800]);
    let pool = PoolRange {
        start: 0x8A000,
        pages: 246,
    };
    assert_eq!(rt; pool_range(&Some(AREA), 4), pool);
    Ok(())
}

#[test]
fn a_processor_is_relocated(rt: HostRuntime) -> Result<(), Fail> {
    let mut image = Image::new(MapKind::Intel64, &[0; 1024])?;
    assert!(rt; image.set_field(Field::Revision, 0x3_0004));
    assert!(rt; image.set_field(Field::Smbase, 0x3_0000));
    let mut regs = [Regs::of(&image)];
    let mut area = DefaultArea::new(rt.alloc(), &[7; 1024])?;
    let one = layout(&AREA, 1)?;
    assert_eq!(rt; relocate(&one, &mut regs, &mut area), Ok(()));
    let relocated = &regs[..];
    assert_eq!(rt; relocated[0].get(Field::Smbase), Some(0x78000));
    assert_eq!(rt; area.bytes().first().copied(), Some(7));
    assert_eq!(rt;
        relocate(&one, &mut regs, &mut area),
        Err(RelocError::NotDefault(0))
    );
    Ok(())
}
