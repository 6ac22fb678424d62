ghost use Rattle.std.specs.Prelude.{◌≤◌, IfSome};
ghost use Rattle.sync_words.specs.Access.{IsWithin};
ghost use Rattle.sync_words.specs.Steps.{IsAccepted};

use arrival::{Entry, Gather, Report};
use cpu_table::Setup;
use platform_file::read_platform;
use std::alloc::{AllocError, Global};
use std::fmt::Write;
use std::test::Fail;
use sync_words::{Access, Applied, Event, EventLine, LOCKED, Row, Want, apply};

// Two processors with one look in each round.
const PAIR: &str = "version = 1
processors = 2
map = \"intel64\"
policy = \"elected\"
mode = \"traditional\"
polls = [1, 1]
visits = 1
ops = 1
[[wave]]
status = [\"prompt\", \"prompt\"]
manage = []
";

// Three processors with two looks in each round.
const TRIO: &str = "version = 1
processors = 3
map = \"intel64\"
policy = \"elected\"
mode = \"traditional\"
polls = [2, 2]
visits = 1
ops = 1
[[wave]]
status = [\"prompt\", \"prompt\", \"prompt\"]
manage = []
";

// Two processors, of which the second is the BSP.
const FIXED: &str = "version = 1
processors = 2
map = \"intel64\"
policy = \"fixed\"
fixed = 1
mode = \"traditional\"
polls = [1, 1]
visits = 1
ops = 1
[[wave]]
status = [\"prompt\", \"prompt\"]
manage = []
";

// Runs, one after the other: the part, the platform and the processor; the events; and the row of another part that comes next,
// for a report with the BSP that it found.
const RUNS: &str = "\
entry pair 0
p0 source look 0 -
p0 inside look 0 turn
next await-session-end
entry pair 1
p1 source look 0 -
p1 inside look 1 -
p1 counter up 16777215 late
next await-session-end
entry pair 1
p1 source look 3 -
p1 inside look 1 -
p1 counter up 1 arrive
next await-inside
entry pair 1
p1 source look 3 -
p1 inside look 0 -
p1 counter up 0 arrive
p1 bsp claim:16777215:1 16777215 elect
next mark-inside
entry pair 1
p1 source look 3 -
p1 inside look 0 -
p1 counter up 1 arrive
p1 bsp claim:16777215:1 0 -
next await-inside
entry fixed 1
p1 source look 3 -
p1 inside look 0 -
p1 counter up 1 arrive
p1 bsp look 1 elect
next mark-inside
entry fixed 0
p0 source look 3 -
p0 inside look 0 -
p0 counter up 0 arrive
p0 bsp look 1 -
next await-inside
gather pair 0
p0 except look 0 gather:0
p0 counter look 2 ready:2
next mark-insync
gather pair 0
p0 except look 1 gather:1
p0 counter look 1 ready:1
next mark-insync
gather pair 0
p0 except look 0 gather:0
p0 counter look 1 expire:1
p0 present1 look 0 -
p0 pend1 signal 2 -
p0 counter look 1 expire:2
next mark-insync
gather trio 1
p1 except look 0 gather:0
p1 counter look 1 -
p1 counter look 2 expire:1
p1 present0 look 1 -
p1 present2 look 0 -
p1 pend2 signal 0 -
p1 counter look 2 -
p1 counter look 3 ready:3
next mark-insync
report pair 1
p1 inside look 1 -
p1 bsp seek:2 0 -
p1 present1 put:1 0 report
p1 run0 up 0 -
next await-release 0
report pair 1
p1 inside look 0 -
p1 bsp look 0 -
p1 pend0 signal 3 -
p1 inside look 0 -
p1 counter lower 1 quit
next await-session-end
report trio 2
p2 inside look 0 -
p2 inside look 0 -
p2 bsp look 16777215 -
p2 inside look 0 -
p2 inside look 0 -
p2 counter lower 16777215 -
p2 bsp seek:3 1 -
p2 present2 put:1 0 report
p2 run1 up 1 -
next await-release 1
report trio 2
p2 inside look 0 -
p2 inside look 0 -
p2 bsp look 1 -
p2 pend1 signal 8 -
p2 inside look 0 -
p2 inside look 1 -
p2 bsp seek:3 0 -
p2 present2 put:1 0 report
p2 run0 up 0 -
next await-release 0
";

#[derive(Drop)]
enum Part {
    None,
    Entry(Entry),
    Gather(Gather),
    Report(Report),
}

// A part of a processor's program, with the processor's number and that of processors.
#[derive(Drop)]
struct Actor {
    processors: u16,
    me: u16,
    part: Part,
}

// What an access that finds this number was accepted with.
pub fn accepted(found: u32, access: Access) -> Option<Applied>
    requires found { found ≤ LOCKED }
    requires access { IsWithin access }
    ensures { IfSome result (IsAccepted access) }
{
    let applied = apply(found, access);
    match applied {
        Applied::NotReady { .. } => None,
        _ => Some(applied),
    }
}

// The event of the entry's next step, if it goes on and its access, which finds this number, is accepted.
fn entry_event(entry: &mut Entry, me: u16, found: u32) -> Option<Event> {
    if entry.left().is_some() || found > LOCKED {
        return None;
    }
    let Want::Access { word, access, .. } = entry.want() else {
        return None;
    };
    let applied = accepted(found, access)?;
    let label = entry.take(applied);
    Some(Event {
        actor: me,
        word,
        access,
        found,
        label,
    })
}

// The same of the gathering.
fn gather_event(gather: &mut Gather, me: u16, found: u32) -> Option<Event> {
    if gather.left().is_some() || found > LOCKED {
        return None;
    }
    let Want::Access { word, access, .. } = gather.want() else {
        return None;
    };
    let applied = accepted(found, access)?;
    let label = gather.take(applied);
    Some(Event {
        actor: me,
        word,
        access,
        found,
        label,
    })
}

// The same of the report.
fn report_event(report: &mut Report, me: u16, found: u32) -> Option<Event> {
    if report.left().is_some() || found > LOCKED {
        return None;
    }
    let Want::Access { word, access, .. } = report.want() else {
        return None;
    };
    let applied = accepted(found, access)?;
    let label = report.take(applied);
    Some(Event {
        actor: me,
        word,
        access,
        found,
        label,
    })
}

// The line of the next event.
fn event_line(actor: &mut Actor, found: u32) -> Option<EventLine> {
    let me = actor.me;
    let event = match &mut actor.part {
        Part::None => None,
        Part::Entry(entry) => entry_event(entry, me, found),
        Part::Gather(gather) => gather_event(gather, me, found),
        Part::Report(report) => report_event(report, me, found),
    };
    event.map(|event| EventLine {
        processors: actor.processors,
        event,
    })
}

fn row_name(row: Option<Row>) -> &'static str {
    match row {
        Some(Row::AwaitSessionEnd) => "await-session-end",
        Some(Row::MarkInside) => "mark-inside",
        Some(Row::AwaitInside(0)) => "await-inside",
        Some(Row::MarkInsync) => "mark-insync",
        Some(Row::AwaitRelease) => "await-release",
        _ => "none",
    }
}

fn next_name(part: &Part) -> &'static str {
    match part {
        Part::None => "none",
        Part::Entry(entry) => row_name(entry.left()),
        Part::Gather(gather) => row_name(gather.left()),
        Part::Report(report) => row_name(report.left()),
    }
}

fn bsp_of(part: &Part) -> Option<u16> {
    match part {
        Part::Report(report) => report.bsp(),
        _ => None,
    }
}

fn platform_text(name: &str) -> &'static str {
    match name {
        "pair" => PAIR,
        "trio" => TRIO,
        _ => FIXED,
    }
}

fn first_part(setup: &Setup, name: &str, me: u16) -> Part {
    if me >= setup.processors {
        return Part::None;
    }
    match name {
        "entry" => Part::Entry(Entry::new(setup, me)),
        "gather" => Part::Gather(Gather::new(setup, me)),
        "report" => Part::Report(Report::new(setup, me)),
        _ => Part::None,
    }
}

fn first_actor(alloc: Global, part: &str, platform: &str, me: &str) -> Option<Actor> {
    let setup = read_platform(alloc, platform_text(platform).as_bytes()).ok()?;
    let me = me.parse().unwrap_or(64);
    Some(Actor {
        processors: setup.processors,
        me,
        part: first_part(&setup, part, me),
    })
}

// Takes a line of the runs as what to do, and tells what was done.
fn follow(alloc: Global, actor: &mut Actor, line: &str, told: &mut String) -> Result<(), Fail> {
    let mut words = line.splitn(5, ' ');
    let first = words.next().unwrap_or("");
    let second = words.next().unwrap_or("");
    let third = words.next().unwrap_or("");
    match first {
        "entry" | "gather" | "report" => {
            *actor = first_actor(alloc, first, second, third).ok_or("no actor")?;
            writeln!(told, "{first} {second} {third}")?;
        }
        "next" => tell_next(&actor.part, told)?,
        _ => {
            let found = words.next().unwrap_or("").parse().unwrap_or(LOCKED);
            let line = event_line(actor, found).ok_or("no event")?;
            writeln!(told, "{line}")?;
        }
    }
    Ok(())
}

fn tell_next(part: &Part, told: &mut String) -> Result<(), Fail> {
    let next = next_name(part);
    match bsp_of(part) {
        Some(bsp) => writeln!(told, "next {next} {bsp}")?,
        None => writeln!(told, "next {next}")?,
    }
    Ok(())
}

#[test]
fn each_row_of_arriving_is_as_the_table_says(rt: HostRuntime) -> Result<(), Fail> {
    let mut told = String::new(rt.alloc());
    let mut actor = Actor {
        processors: 0,
        me: 0,
        part: Part::None,
    };
    for line in RUNS.lines() {
        follow(rt.alloc(), &mut actor, line, &mut told)?;
    }
    assert_eq!(rt; told.as_str(), RUNS);
    Ok(())
}
