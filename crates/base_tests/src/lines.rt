use std::fmt::Write;
use std::test::Fail;
use sync_words::{Access, Event, EventLine, LOCKED, Label, WordId};

// Each access once, on each word in turn.
static EVENTS: [(u16, WordId, Access); 13] = [
    (2, WordId::Except, Access::Put(0)),
    (0, WordId::Counter, Access::Up),
    (0, WordId::Counter, Access::Lock),
    (1, WordId::Counter, Access::Lower),
    (0, WordId::Bsp, Access::Claim(LOCKED, 0)),
    (1, WordId::Bsp, Access::Seek(2)),
    (1, WordId::Inside, Access::Look),
    (1, WordId::Insync, Access::Await(0, 0)),
    (0, WordId::Run(1), Access::Down),
    (0, WordId::Pend(1), Access::Signal),
    (2, WordId::Pend(63), Access::Raise(3)),
    (0, WordId::Present(1), Access::TakeSmi),
    (0, WordId::Busy(12), Access::ClearSmi),
];

const TEXT: &str = "\
chip except put:0 16777215 -\n\
p0 counter up 16777215 -\n\
p0 counter lock 16777215 -\n\
p1 counter lower 16777215 -\n\
p0 bsp claim:16777215:0 16777215 -\n\
p1 bsp seek:2 16777215 -\n\
p1 inside look 16777215 -\n\
p1 insync await:0:0 16777215 -\n\
p0 run1 down 16777215 -\n\
p0 pend1 signal 16777215 -\n\
chip pend63 raise:3 16777215 -\n\
p0 present1 take 16777215 -\n\
p0 busy12 clear 16777215 -\n\
chip source look 16777215 -\n\
";

// What each of the events above says, and the number that it found.
fn line_of(actor: u16, word: WordId, access: Access) -> EventLine {
    EventLine {
        processors: 2,
        event: Event {
            actor,
            word,
            access,
            found: LOCKED,
            label: Label::Silent,
        },
    }
}

#[test]
fn each_word_and_access_has_its_spelling(rt: HostRuntime) -> Result<(), Fail> {
    let mut told = String::new(rt.alloc());
    for (actor, word, access) in EVENTS.iter() {
        let line = line_of(*actor, *word, *access);
        writeln!(told, "{line}")?;
    }
    let line = line_of(2, WordId::Source, Access::Look);
    writeln!(told, "{line}")?;
    assert_eq!(rt; told.as_str(), TEXT);
    Ok(())
}
