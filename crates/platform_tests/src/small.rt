use cpu_table::{LayoutError, TableError};
use schedule_file::ScheduleError;
use std::test::Fail;

#[test]
fn errors_print_themselves(rt: HostRuntime) -> Result<(), Fail> {
    let alloc = rt.alloc();
    let printed = format!(in alloc;
        "{}, {}, {}, {}, {}, {}, {}, {}",
        TableError::TooMany(65),
        TableError::Repeated(7),
        TableError::NoMemory,
        ScheduleError::Token(7),
        ScheduleError::Actor(3, 9),
        ScheduleError::TooLong,
        ScheduleError::NoMemory,
        LayoutError::PastEnd(8)
    )?;
    assert_eq!(rt;
        printed.as_str(),
        "too-many 65, repeated 7, no memory, token 7, actor 3 9, too-long, no memory, past-end 8"
    );
    Ok(())
}
