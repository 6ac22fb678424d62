use crate::starts::Actor;
use crate::turns::turn;
use cpu_program::Cargo;
use handler_ops::{BoxedDesk, Job};
use platform_file::read_platform;
use std::alloc::Global;
use std::fmt;
use std::fmt::Write;
use std::test::Fail;
use sync_words::{EventLine, Hand, LOCKED};

// Two processors with one look in each round.
const PAIR: &str = "version = 1
processors = 2
map = \"intel64\"
policy = \"elected\"
mode = \"traditional\"
polls = [1, 1]
visits = 1
ops = 8
[[procedure]]
name = \"store\"
act = \"put\"
reg = \"RAX\"
[[wave]]
status = [\"prompt\", \"prompt\"]
manage = []
";

// The same with two visits.
const TWICE: &str = "version = 1
processors = 2
map = \"intel64\"
policy = \"elected\"
mode = \"traditional\"
polls = [1, 1]
visits = 2
ops = 8
[[wave]]
status = [\"prompt\", \"prompt\"]
manage = []
";

// Two processors, of which the second is the BSP.
const FIXED: &str = "version = 1
processors = 2
map = \"intel64\"
policy = \"fixed\"
fixed = 1
mode = \"traditional\"
polls = [1, 1]
visits = 1
ops = 8
[[wave]]
status = [\"prompt\", \"prompt\"]
manage = []
";

// Three processors, of which the first gives the second a job and doesn't wait for it.
const RELAXED: &str = "version = 1
processors = 3
map = \"intel64\"
policy = \"elected\"
mode = \"relaxed\"
polls = [1, 1]
visits = 1
ops = 8
[[procedure]]
name = \"store\"
act = \"put\"
reg = \"RAX\"
[[wave]]
status = [\"prompt\", \"prompt\", \"prompt\"]
manage = [\"root\"]
[[handler]]
name = \"first\"
type = \"root\"
answer = \"SUCCESS\"
ops = [
  {op = \"launch\", cpu = 1, procedure = \"store\", arg = 7, into = \"v0\"},
]
";

// Two waves, of which the first has each arrival.
const WAVES: &str = "version = 1
processors = 4
map = \"intel64\"
policy = \"elected\"
mode = \"traditional\"
polls = [1, 1]
visits = 2
ops = 8
[[wave]]
status = [\"prompt\", \"delayed\", \"blocked\", \"absent\"]
manage = []
[[wave]]
status = [\"blocked\", \"prompt\", \"blocked\", \"delayed\"]
manage = []
";

// 64 processors, of which the handler looks at every second one.
const MANY: &str = "version = 1
processors = 64
map = \"intel64\"
policy = \"elected\"
mode = \"relaxed\"
polls = [1, 1]
visits = 1
ops = 64
";

// Runs, one after the other: the platform and the actor; the events, with what changes hands; and where it has no further one `off`.
// The line `job` lays a job on the desk that the actor gave away.
const RUNS: &str = "\
program pair 0
p0 pend0 take 1 enter
p0 source look 1 -
p0 inside look 0 -
p0 counter up 0 arrive
p0 bsp claim:16777215:0 16777215 elect take 2
p0 inside put:1 0 -
p0 source put:0 1 served:1
p0 except look 0 gather:0
p0 counter look 2 ready:2
p0 insync put:1 0 -
p0 counter lock 2 close:2
p0 run0 down 1 -
p0 present1 claim:1:2 1 - take 1
p0 inside look 1 begin:1
p0 inside put:0 1 done
p0 run1 up 0 release:1 give 1
p0 run0 down 1 -
p0 run1 up 0 -
p0 run0 down 1 -
p0 bsp put:16777215 0 - give 2
p0 insync put:0 1 -
p0 counter put:0 16777215 end
p0 insync await:0:0 0 -
p0 pend0 clear 8 resume:next
p0 pend0 put:4 0 off
off
program pair 0
p0 pend0 take 1 enter
p0 source look 1 -
p0 inside look 0 -
p0 counter up 0 arrive
p0 bsp claim:16777215:0 16777215 elect take 2
p0 inside put:1 0 -
p0 source put:0 1 served:1
p0 except look 0 gather:0
p0 counter look 1 expire:1
p0 present1 look 0 -
p0 pend1 signal 2 -
p0 counter look 1 expire:2
p0 insync put:1 0 -
p0 counter lock 1 close:1
p0 present1 claim:1:2 0 -
p0 inside look 1 begin:1
p0 inside put:0 1 done
p0 bsp put:16777215 0 - give 2
p0 insync put:0 1 -
p0 counter put:0 16777215 end
p0 insync await:0:0 0 -
p0 pend0 clear 9 resume:next
p0 pend0 put:4 1 off
off
program pair 1
p1 pend1 take 1 enter
p1 source look 1 -
p1 inside look 1 -
p1 counter up 1 arrive
p1 inside look 1 -
p1 bsp seek:2 0 -
p1 present1 put:1 0 report give 1
p1 run0 up 0 -
job
p1 run1 down 1 - take 1
p1 busy1 put:2 1 run:7:0:SUCCESS give 1
p1 run1 down 1 - take 1
p1 run0 up 0 -
p1 run1 down 1 -
p1 present1 put:0 2 depart
p1 run0 up 0 -
p1 insync await:0:0 0 -
p1 pend1 clear 8 resume:next
p1 pend1 put:4 0 off
off
program pair 1
p1 pend1 take 1 enter
p1 source look 1 -
p1 inside look 0 -
p1 counter up 1 arrive
p1 bsp claim:16777215:1 0 -
p1 inside look 0 -
p1 bsp look 0 -
p1 pend0 signal 8 -
p1 inside look 1 -
p1 bsp seek:2 0 -
p1 present1 put:1 0 report give 1
p1 run0 up 0 -
p1 run1 down 1 - take 1
p1 run0 up 0 -
p1 run1 down 1 -
p1 present1 put:0 2 depart
p1 run0 up 0 -
p1 insync await:0:0 0 -
p1 pend1 clear 8 resume:next
p1 pend1 put:4 0 off
off
program twice 1
p1 pend1 take 1 enter
p1 source look 1 -
p1 inside look 1 -
p1 counter up 1 arrive
p1 inside look 0 -
p1 bsp look 0 -
p1 pend0 signal 0 -
p1 inside look 0 -
p1 counter lower 2 quit
p1 insync await:0:0 0 -
p1 pend1 clear 8 resume:next
p1 pend1 take 1 enter
p1 source look 1 -
p1 inside look 1 -
p1 counter up 1 arrive
p1 inside look 0 -
p1 bsp look 16777215 -
p1 inside look 0 -
p1 counter lower 16777215 -
p1 bsp seek:2 0 -
p1 present1 put:1 0 report give 1
p1 run0 up 0 -
p1 run1 down 2 - take 1
p1 run0 up 0 -
p1 run1 down 1 -
p1 present1 put:0 2 depart
p1 run0 up 0 -
p1 insync await:0:0 0 -
p1 pend1 clear 9 resume:next
p1 pend1 put:4 1 off
off
program twice 1
p1 pend1 take 1 enter
p1 source look 0 -
p1 inside look 0 turn
p1 insync await:0:0 0 -
p1 pend1 clear 9 resume:next
p1 pend1 take 1 enter
p1 source look 0 -
p1 inside look 1 -
p1 counter up 16777215 late
p1 insync await:0:0 0 -
p1 pend1 clear 8 resume:next
p1 pend1 put:4 0 off
off
program twice 0
p0 pend0 take 4 off
off
program fixed 1
p1 pend1 take 1 enter
p1 source look 1 -
p1 inside look 0 -
p1 counter up 1 arrive
p1 bsp look 1 elect
p1 inside put:1 0 -
p1 source put:0 1 served:1
p1 except look 1 gather:1
p1 counter look 1 ready:1
p1 insync put:1 0 -
p1 counter lock 2 close:2
p1 run1 down 1 -
p1 present0 claim:1:2 1 - take 0
p1 inside look 1 begin:1
p1 inside put:0 1 done
p1 run0 up 0 release:0 give 0
p1 run1 down 1 -
p1 run0 up 0 -
p1 run1 down 1 -
p1 insync put:0 1 -
p1 counter put:0 16777215 end
p1 insync await:0:0 0 -
p1 pend1 clear 8 resume:next
p1 pend1 put:4 0 off
off
program fixed 0
p0 pend0 take 1 enter
p0 source look 1 -
p0 inside look 0 -
p0 counter up 0 arrive
p0 bsp look 1 -
p0 inside look 1 -
p0 bsp seek:2 1 -
p0 present0 put:1 0 report give 0
p0 run1 up 0 -
p0 run0 down 1 - take 0
p0 run1 up 0 -
p0 run0 down 1 -
p0 present0 put:0 2 depart
p0 run1 up 0 -
p0 insync await:0:0 0 -
p0 pend0 clear 8 resume:next
p0 pend0 put:4 0 off
off
program relaxed 0
p0 pend0 take 1 enter
p0 source look 1 -
p0 inside look 0 -
p0 counter up 0 arrive
p0 bsp claim:16777215:0 16777215 elect take 3
p0 inside put:1 0 -
p0 source put:0 1 served:1
p0 inside look 1 begin:1
p0 inside look 1 manage:root
p0 inside look 1 call:0
p0 present1 claim:1:2 1 - take 1
p0 busy1 put:1 0 -
p0 run1 up 0 start:1:1:0:7 give 1
p0 inside look 1 return:0:SUCCESS
p0 inside look 1 answer:SUCCESS
p0 busy1 await:2:0 2 collect:1 take 1
p0 insync put:1 0 -
p0 counter lock 3 close:3
p0 run0 down 2 -
p0 run0 down 1 -
p0 present2 claim:1:2 1 - take 2
p0 inside put:0 1 done
p0 run1 up 0 release:1 give 1
p0 run2 up 0 release:2 give 2
p0 run0 down 2 -
p0 run0 down 1 -
p0 run1 up 0 -
p0 run2 up 0 -
p0 run0 down 1 -
p0 run0 down 1 -
p0 bsp put:16777215 0 - give 3
p0 insync put:0 1 -
p0 counter put:0 16777215 end
p0 insync await:0:0 0 -
p0 pend0 clear 8 resume:next
p0 pend0 put:4 0 off
off
program waves 4
chip except put:1 0 excepted:1
chip source put:1 0 wave:1
chip pend0 raise:1 0 -
chip pend1 raise:2 0 -
chip pend2 raise:3 0 -
chip pend3 raise:3 0 -
chip source look 1 -
chip source look 1 -
chip inside await:0:0 0 -
chip except put:2 1 excepted:2
chip source put:2 0 wave:2
chip pend0 raise:3 8 -
chip pend1 raise:1 0 -
chip pend2 raise:3 3 -
chip pend3 raise:2 3 -
chip source look 0 -
chip inside await:0:0 0 -
chip pend0 raise:4 3 -
chip pend1 raise:4 8 -
chip pend2 raise:4 4 -
chip pend3 raise:4 2 -
off
program many 0
p0 pend0 take 1 enter
p0 source look 1 -
p0 inside look 0 -
p0 counter up 0 arrive
p0 bsp claim:16777215:0 16777215 elect take 64
p0 inside put:1 0 -
p0 source put:0 1 served:1
p0 inside look 1 begin:1
p0 inside look 1 manage:root
p0 inside look 1 call:0
";

// What the BSP of 64 processors does after its session.
const END: &str = "\
p0 bsp put:16777215 0 - give 64
p0 insync put:0 1 -
p0 counter put:0 16777215 end
p0 insync await:0:0 0 -
p0 pend0 clear 8 resume:next
p0 pend0 put:4 0 off
off
";

#[derive(Clone, Copy)]
struct HandText(Hand);

impl fmt::Display for HandText {
    fn fmt<W: fmt::Write>(&self, f: &mut fmt::Formatter<W>) -> fmt::Result {
        match self.0 {
            Hand::Nothing => f.write_str(""),
            Hand::Give(thing) => write!(f, " give {thing}"),
            Hand::Take(thing) => write!(f, " take {thing}"),
        }
    }
}

// A wave of 64 processors, and a handler that looks at those with even numbers.
fn write_many(text: &mut String) -> fmt::Result {
    text.write_str(MANY)?;
    text.write_str("[[wave]]\nmanage = [\"root\"]\nstatus = [\n")?;
    for _ in 0..64 {
        text.write_str("\"prompt\",\n")?;
    }
    text.write_str(
        "]\n[[handler]]\nname = \"all\"\ntype = \"root\"\nanswer = \"SUCCESS\"\nops = [\n",
    )?;
    for cpu in 1..64u16 {
        if cpu % 2 == 0 {
            writeln!(
                text,
                "{{op = \"read\", cpu = {cpu}, reg = \"RAX\", width = 8, into = \"v0\"}},"
            )?;
        }
    }
    text.write_str("]\n")
}

fn platform_text(alloc: Global, name: &str) -> Result<String, fmt::Error> {
    let mut text = String::new(alloc);
    match name {
        "pair" => text.write_str(PAIR)?,
        "twice" => text.write_str(TWICE)?,
        "fixed" => text.write_str(FIXED)?,
        "relaxed" => text.write_str(RELAXED)?,
        "waves" => text.write_str(WAVES)?,
        _ => write_many(&mut text)?,
    }
    Ok(text)
}

fn first_actor(alloc: Global, line: &str) -> Option<Actor> {
    let mut words = line.split(' ');
    let _program = words.next();
    let text = platform_text(alloc, words.next().unwrap_or("")).ok()?;
    let me = words.next().unwrap_or("").parse().unwrap_or(64);
    let setup = read_platform(alloc, text.as_bytes()).ok()?;
    Actor::new(alloc, setup, me)
}

// The line of the next event, and what changes hands.
fn next_event(actor: &mut Option<Actor>, found: u32) -> Option<(EventLine, HandText)> {
    let actor = actor.as_mut()?;
    let (event, hand) = turn(&mut actor.program, &mut actor.others, found)?;
    let line = EventLine {
        processors: actor.processors,
        event,
    };
    Some((line, HandText(hand)))
}

// A job is laid on the desk that the actor gave away.
fn lay_job(actor: &mut Option<Actor>) -> Option<()> {
    let actor = actor.as_mut()?;
    let place = actor.others.things.get_mut(usize::from(actor.me))?;
    if let Some(Cargo::Desk(desk)) = place.as_mut() {
        lay_on(desk);
    }
    Some(())
}

fn lay_on(desk: &mut BoxedDesk) {
    desk.give(Job {
        number: 7,
        procedure: 0,
        arg: 9,
        done: None,
    });
}

fn is_off(actor: &Option<Actor>) -> bool {
    match actor {
        Some(actor) => actor.program.is_off(),
        None => false,
    }
}

// Takes a line of the runs as what to do, and tells what was done.
fn follow(
    alloc: Global,
    actor: &mut Option<Actor>,
    line: &str,
    told: &mut String,
) -> Result<(), Fail> {
    if line.starts_with("program ") {
        *actor = first_actor(alloc, line);
        writeln!(told, "{line}")?;
    } else if line == "job" {
        lay_job(actor).ok_or("no desk")?;
        writeln!(told, "job")?;
    } else if line == "off" && is_off(actor) {
        writeln!(told, "off")?;
    } else {
        let found = line
            .split(' ')
            .nth(3)
            .unwrap_or("")
            .parse()
            .unwrap_or(LOCKED);
        let (event, hand) = next_event(actor, found).ok_or("no event")?;
        writeln!(told, "{event}{hand}")?;
    }
    Ok(())
}

// Each processor with an even number but the first in the place of a dollar sign.
fn write_each(text: &mut String, line: &str) -> fmt::Result {
    for cpu in 1..64 {
        if cpu % 2 == 0 {
            write_line(text, line, cpu)?;
        }
    }
    Ok(())
}

fn write_odd(text: &mut String, line: &str) -> fmt::Result {
    for cpu in 0..64 {
        if cpu % 2 == 1 {
            write_line(text, line, cpu)?;
        }
    }
    Ok(())
}

fn write_line(text: &mut String, line: &str, cpu: u16) -> fmt::Result {
    for (i, part) in line.split('$').enumerate() {
        if i > 0 {
            write!(text, "{cpu}")?;
        }
        text.write_str(part)?;
    }
    text.write_str("\n")
}

// The run of the BSP of 64 processors, of which those with even numbers report.
fn write_many_run(text: &mut String) -> fmt::Result {
    write_each(
        text,
        "p0 present$ claim:1:2 1 - take $\np0 inside look 1 read:$:RAX:8:0:SUCCESS",
    )?;
    text.write_str("p0 inside look 1 return:0:SUCCESS\np0 inside look 1 answer:SUCCESS\n")?;
    text.write_str("p0 insync put:1 0 -\np0 counter lock 32 close:32\n")?;
    write_each(text, "p0 run0 down 1 -")?;
    write_odd(text, "p0 present$ claim:1:2 0 -")?;
    text.write_str("p0 inside put:0 1 done\n")?;
    write_each(text, "p0 run$ up 0 release:$ give $")?;
    write_each(text, "p0 run0 down 1 -")?;
    write_each(text, "p0 run$ up 0 -")?;
    write_each(text, "p0 run0 down 1 -")?;
    text.write_str(END)
}

#[test]
fn each_event_of_a_program_is_as_the_table_says(rt: HostRuntime) -> Result<(), Fail> {
    let mut runs = String::new(rt.alloc());
    runs.write_str(RUNS)?;
    write_many_run(&mut runs)?;
    let mut told = String::new(rt.alloc());
    let mut actor = None;
    for line in runs.as_str().lines() {
        follow(rt.alloc(), &mut actor, line, &mut told)?;
    }
    assert_eq!(rt; told.as_str(), runs.as_str());
    Ok(())
}

#[test]
fn a_processor_begins_with_the_image_that_it_is_given(rt: HostRuntime) -> Result<(), Fail> {
    let actor = first_actor(rt.alloc(), "program fixed 1").ok_or("no actor")?;
    assert!(rt; actor.is_blank());
    let chipset = first_actor(rt.alloc(), "program fixed 2").ok_or("no actor")?;
    assert!(rt; chipset.program.last().is_none());
    Ok(())
}
