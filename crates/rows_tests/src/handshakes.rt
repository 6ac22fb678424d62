use crate::arrivals::accepted;
use exit_handshake::{Close, Exit};
use std::fmt;
use std::fmt::Write;
use std::test::Fail;
use sync_words::{Applied, Event, EventLine, Hand, LOCKED, Label, Row, Want};

// Runs, one after the other: the part, how many processors, the BSP, the bits of the desks that it holds, and the mode or the
// policy; the events, with what is to change hands; and the row of another part that comes next.
const RUNS: &str = "\
close 3 0 1 traditional
p0 insync put:1 0 -
p0 counter lock 3 close:3
p0 run0 down 1 -
p0 run0 down 2 -
p0 present1 claim:1:2 1 - take 1
p0 present2 claim:1:2 1 - take 2
next serve
close 2 1 2 traditional
p1 insync put:1 0 -
p1 counter lock 1 close:1
p1 present0 claim:1:2 0 - take 0
next serve
close 2 0 1 traditional
p0 insync put:1 0 -
p0 counter lock 0 close:0
p0 present1 claim:1:2 1 - take 1
next serve
close 1 0 1 traditional
p0 insync put:1 0 -
p0 counter lock 1 close:1
next serve
close 3 1 7 relaxed
p1 insync put:1 0 -
p1 counter lock 2 close:2
p1 run1 down 1 -
next leave-inside
close 4 2 6 relaxed
p2 insync put:1 0 -
p2 counter lock 2 close:2
p2 run2 down 3 -
p2 present0 claim:1:2 0 - take 0
p2 present3 claim:1:2 1 - take 3
next leave-inside
exit 3 0 7 elected
p0 run1 up 0 release:1 give 1
p0 run2 up 0 release:2 give 2
p0 run0 down 1 -
p0 run0 down 1 -
p0 run1 up 0 -
p0 run2 up 1 -
p0 run0 down 1 -
p0 run0 down 2 -
p0 bsp put:16777215 0 - give 3
p0 insync put:0 1 -
p0 counter put:0 16777215 end
next await-session-end
exit 3 1 3 fixed
p1 run0 up 0 release:0 give 0
p1 run1 down 1 -
p1 run0 up 0 -
p1 run1 down 1 -
p1 insync put:0 1 -
p1 counter put:0 16777215 end
next await-session-end
exit 1 0 1 elected
p0 bsp put:16777215 0 - give 1
p0 insync put:0 1 -
p0 counter put:0 16777215 end
next await-session-end
";

// The BSP 0 of 64 processors holds the desks with even numbers: what it takes, and what it gives.
const EVERY_SECOND: u64 = 0x5555_5555_5555_5555;

const TAKEN: &str =
    "1 3 5 7 9 11 13 15 17 19 21 23 25 27 29 31 33 35 37 39 41 43 45 47 49 51 53 55 57 59 61 63 ";

const GIVEN: &str =
    "2 4 6 8 10 12 14 16 18 20 22 24 26 28 30 32 34 36 38 40 42 44 46 48 50 52 54 56 58 60 62 64 ";

#[derive(Drop)]
enum Part {
    None,
    Close(Close),
    Exit(Exit),
}

// A part of a BSP's program, with the BSP's number and that of processors.
#[derive(Drop)]
struct Actor {
    processors: u16,
    me: u16,
    part: Part,
}

// What is to change hands.
#[derive(Clone, Copy)]
struct HandText(Hand);

impl fmt::Display for HandText {
    fn fmt<W: fmt::Write>(&self, f: &mut fmt::Formatter<W>) -> fmt::Result {
        match self.0 {
            Hand::Nothing => Ok(()),
            Hand::Give(thing) => write!(f, " give {thing}"),
            Hand::Take(thing) => write!(f, " take {thing}"),
        }
    }
}

// What the part wants, while it goes on.
fn wanted(part: &Part) -> Want {
    match part {
        Part::Close(close) if close.left().is_none() => close.want(),
        Part::Exit(exit) if exit.left().is_none() => exit.want(),
        _ => Want::Off,
    }
}

// The label of the next event of a close, if it goes on and its access, which finds this number, is accepted.
fn close_label(close: &mut Close, found: u32) -> Option<Label> {
    if close.left().is_some() || found > LOCKED {
        return None;
    }
    let Want::Access { access, .. } = close.want() else {
        return None;
    };
    let applied = accepted(found, access)?;
    Some(close.take(applied))
}

// The same of an exit.
fn exit_label(exit: &mut Exit, found: u32) -> Option<Label> {
    if exit.left().is_some() || found > LOCKED {
        return None;
    }
    let Want::Access { access, .. } = exit.want() else {
        return None;
    };
    let applied = accepted(found, access)?;
    Some(exit.take(applied))
}

fn label(part: &mut Part, found: u32) -> Option<Label> {
    match part {
        Part::None => None,
        Part::Close(close) => close_label(close, found),
        Part::Exit(exit) => exit_label(exit, found),
    }
}

// The line of the next event, and what is to change hands at it.
fn event_line(actor: &mut Actor, found: u32) -> Option<(EventLine, Hand)> {
    let Want::Access { word, access, hand } = wanted(&actor.part) else {
        return None;
    };
    let label = label(&mut actor.part, found)?;
    let event = Event {
        actor: actor.me,
        word,
        access,
        found,
        label,
    };
    let processors = actor.processors;
    Some((EventLine { processors, event }, hand))
}

fn next_name(part: &Part) -> &'static str {
    let left = match part {
        Part::None => None,
        Part::Close(close) => close.left(),
        Part::Exit(exit) => exit.left(),
    };
    match left {
        Some(Row::Serve) => "serve",
        Some(Row::LeaveInside) => "leave-inside",
        Some(Row::AwaitSessionEnd) => "await-session-end",
        _ => "none",
    }
}

// A part by its name, for up to 4 processors, and the word of its mode or policy.
fn first_part(name: &str, processors: u16, me: u16, held: u64, word: &str) -> Part {
    if processors > 4 || me >= processors || held >= (1 << processors) {
        return Part::None;
    }
    match name {
        "close" => Part::Close(Close::new(processors, me, held, word == "relaxed")),
        "exit" => Part::Exit(Exit::new(processors, me, held, word == "elected")),
        _ => Part::None,
    }
}

fn first_actor(line: &str) -> Actor {
    let mut words = line.split(' ');
    let name = words.next().unwrap_or("");
    let processors = words.next().unwrap_or("").parse().unwrap_or(0);
    let me = words.next().unwrap_or("").parse().unwrap_or(0);
    let held = words.next().unwrap_or("").parse().unwrap_or(0);
    let word = words.next().unwrap_or("");
    Actor {
        processors,
        me,
        part: first_part(name, processors, me, held, word),
    }
}

// Takes a line of the runs as what to do, and tells what was done.
fn follow(actor: &mut Actor, line: &str, told: &mut String) -> Result<(), Fail> {
    if line.starts_with("close ") || line.starts_with("exit ") {
        *actor = first_actor(line);
        writeln!(told, "{line}")?;
        return Ok(());
    }
    if line.starts_with("next ") {
        let next = next_name(&actor.part);
        writeln!(told, "next {next}")?;
        return Ok(());
    }
    let found = line
        .split(' ')
        .nth(3)
        .unwrap_or("")
        .parse()
        .unwrap_or(LOCKED);
    let (line, hand) = event_line(actor, found).ok_or("no event")?;
    let hand = HandText(hand);
    writeln!(told, "{line}{hand}")?;
    Ok(())
}

#[test]
fn each_row_of_a_close_and_an_exit_is_as_the_table_says(rt: HostRuntime) -> Result<(), Fail> {
    let mut told = String::new(rt.alloc());
    let mut actor = Actor {
        processors: 0,
        me: 0,
        part: Part::None,
    };
    for line in RUNS.lines() {
        follow(&mut actor, line, &mut told)?;
    }
    assert_eq!(rt; told.as_str(), RUNS);
    Ok(())
}

// What changes hands in a part whose every access finds 1.
fn things_moved(part: &mut Part, told: &mut String) -> Result<(), Fail> {
    for _ in 0..256 {
        let hand = match wanted(part) {
            Want::Access { hand, .. } => hand,
            Want::Off => Hand::Nothing,
        };
        match hand {
            Hand::Nothing => (),
            Hand::Give(thing) | Hand::Take(thing) => write!(told, "{thing} ")?,
        }
        let _label = label(part, 1);
    }
    Ok(())
}

#[test]
fn of_64_desks_every_second_is_taken_and_given(rt: HostRuntime) -> Result<(), Fail> {
    let mut taken = String::new(rt.alloc());
    let mut close = Part::Close(Close::new(64, 0, EVERY_SECOND, true));
    things_moved(&mut close, &mut taken)?;
    assert_eq!(rt; taken.as_str(), TAKEN);
    assert_eq!(rt; next_name(&close), "leave-inside");
    let mut given = String::new(rt.alloc());
    let mut exit = Part::Exit(Exit::new(64, 0, EVERY_SECOND, true));
    things_moved(&mut exit, &mut given)?;
    assert_eq!(rt; given.as_str(), GIVEN);
    assert_eq!(rt; next_name(&exit), "await-session-end");
    Ok(())
}
