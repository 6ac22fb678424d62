use crate::turns::{Others, turn};
use cpu_table::Setup;
use handler_ops::{BoxedDesk, Desk, Desks, Held, Need, Server};
use platform_file::read_platform;
use save_state_map::{Image, MapKind};
use smm_base::NoMemory;
use std::alloc::Global;
use std::fmt;
use std::fmt::Write;
use std::test::Fail;
use sync_words::Label;

// Three processors, and three procedures, of which the last is refused: its register is not to be written. The first wave has
// one walk, and the second has two. The units come before, and the handlers after it.
const PLATFORM: &str = "
version = 1
processors = 3
map = \"intel64\"
policy = \"elected\"
mode = \"traditional\"
polls = [1, 1]
visits = 2
[[wave]]
status = [\"prompt\", \"prompt\", \"prompt\"]
manage = [\"root\"]
[[wave]]
status = [\"prompt\", \"prompt\", \"prompt\"]
manage = [\"root\", \"root\"]
[[procedure]]
name = \"load\"
act = \"get\"
reg = \"RAX\"
[[procedure]]
name = \"store\"
act = \"put\"
reg = \"RAX\"
[[procedure]]
name = \"fix\"
act = \"put\"
reg = \"CR0\"
";

// A processor with a job that is open, and one that is done.
const WORKING: &str = "[[handler]]
name = \"working\"
type = \"root\"
answer = \"SUCCESS\"
ops = [
  {op = \"launch\", cpu = 1, procedure = \"store\", arg = 7, into = \"v0\"},
  {op = \"launch\", cpu = 1, procedure = \"load\", arg = 8, into = \"v1\"},
  {op = \"check\", token = \"v0\"},
  {op = \"check\", token = \"v1\"},
  {op = \"read\", cpu = 1, reg = \"RAX\", width = 8, into = \"v2\"},
  {op = \"write\", cpu = 1, reg = \"RAX\", width = 8, value = 9},
  {op = \"launch\", cpu = 1, procedure = \"load\", arg = 8, into = \"v1\"},
  {op = \"check\", token = \"v0\"},
  {op = \"check\", token = \"v0\"},
  {op = \"wait\", token = \"v1\", into = \"v3\"},
  {op = \"wait\", token = \"v1\", into = \"v3\"},
  {op = \"set\", into = \"v4\", value = \"v3\"},
  {op = \"launch\", cpu = 1, procedure = \"store\", arg = 258, into = \"v0\"},
  {op = \"check\", token = \"v0\"},
  {op = \"launch\", cpu = 1, procedure = \"fix\", arg = 5, into = \"v0\"},
  {op = \"read\", cpu = 1, reg = \"RAX\", width = 1, into = \"v5\"},
  {op = \"wait\", token = \"v0\", into = \"v3\"},
  {op = \"set\", into = \"v4\", value = \"v3\"},
  {op = \"launch\", cpu = 1, procedure = \"store\", arg = 3, into = \"v0\"},
  {op = \"write\", cpu = 1, reg = \"RAX\", width = 2, value = 65541},
  {op = \"read\", cpu = 1, reg = \"RAX\", width = 8, into = \"v5\"},
]
";

// Procedures that are waited for.
const STARTING: &str = "[[handler]]
name = \"starting\"
type = \"root\"
answer = \"SUCCESS\"
ops = [
  {op = \"start\", cpu = 1, procedure = \"store\", arg = 6, into = \"v0\"},
  {op = \"start\", cpu = 1, procedure = \"load\", arg = 0, into = \"v1\"},
  {op = \"set\", into = \"v2\", value = \"v1\"},
  {op = \"launch\", cpu = 1, procedure = \"store\", arg = 8, into = \"v3\"},
  {op = \"start\", cpu = 1, procedure = \"load\", arg = 0, into = \"v1\"},
  {op = \"set\", into = \"v2\", value = \"v1\"},
  {op = \"check\", token = \"v3\"},
  {op = \"check\", token = 4},
  {op = \"start\", cpu = 1, procedure = \"fix\", arg = 5, into = \"v1\"},
  {op = \"set\", into = \"v2\", value = \"v1\"},
  {op = \"start\", cpu = 2, procedure = \"load\", arg = 0, into = \"v1\"},
]
";

// Processors that aren't there, or not yet.
const ABSENT: &str = "[[handler]]
name = \"absent\"
type = \"root\"
answer = \"SUCCESS\"
ops = [
  {op = \"launch\", cpu = 1, procedure = \"store\", arg = 7, into = \"v0\"},
  {op = \"start\", cpu = 1, procedure = \"store\", arg = 7, into = \"v0\"},
  {op = \"read\", cpu = 1, reg = \"RAX\", width = 8, into = \"v0\"},
  {op = \"read\", cpu = 1, reg = \"PROCESSOR_ID\", width = 8, into = \"v0\"},
  {op = \"write\", cpu = 1, reg = \"RAX\", width = 8, value = 9},
  {op = \"write\", cpu = 1, reg = \"PROCESSOR_ID\", width = 8, value = 9},
  {op = \"read\", cpu = 3, reg = \"RAX\", width = 8, into = \"v0\"},
  {op = \"write\", cpu = 3, reg = \"RAX\", width = 8, value = 9},
  {op = \"write\", cpu = 0, reg = \"RAX\", width = 8, value = 5},
  {op = \"read\", cpu = 0, reg = \"RAX\", width = 8, into = \"v0\"},
  {op = \"read\", cpu = 1, reg = \"RAX\", width = 8, into = \"v0\"},
  {op = \"read\", cpu = 1, reg = \"PROCESSOR_ID\", width = 8, into = \"v0\"},
  {op = \"write\", cpu = 2, reg = \"CR0\", width = 8, value = 9},
  {op = \"read\", cpu = 2, reg = \"GDTLIMIT\", width = 8, into = \"v0\"},
  {op = \"read\", cpu = 2, reg = \"RAX\", width = 9, into = \"v0\"},
  {op = \"read\", cpu = 2, reg = \"RAX\", width = 0, into = \"v0\"},
]
";

// Refusals, of which two or three hold at once.
const CAUSES: &str = "[[handler]]
name = \"causes\"
type = \"root\"
answer = \"SUCCESS\"
ops = [
  {op = \"start\", cpu = 3, procedure = \"none\", arg = 1, into = \"v0\"},
  {op = \"launch\", cpu = 3, procedure = \"none\", arg = 1, into = \"v0\"},
  {op = \"start\", cpu = 0, procedure = \"none\", arg = 1, into = \"v0\"},
  {op = \"launch\", cpu = 0, procedure = \"none\", arg = 1, into = \"v0\"},
  {op = \"start\", cpu = 1, procedure = \"none\", arg = 1, into = \"v0\"},
  {op = \"launch\", cpu = 1, procedure = \"none\", arg = 1, into = \"v0\"},
  {op = \"launch\", cpu = 1, procedure = \"store\", arg = 7, into = \"v0\"},
  {op = \"start\", cpu = 1, procedure = \"none\", arg = 1, into = \"v0\"},
  {op = \"launch\", cpu = 1, procedure = \"none\", arg = 1, into = \"v0\"},
  {op = \"manage\", type = \"00112233-4455-6677-8899-aabbccddeeff\"},
  {op = \"alloc\", size = 0, into = \"v1\"},
  {op = \"alloc\", size = 64, into = \"v1\"},
  {op = \"free\", place = 4096},
]
";

// Three operations.
const THREE: &str = "[[handler]]
name = \"three\"
type = \"root\"
answer = \"SUCCESS\"
ops = [
  {op = \"set\", into = \"v0\", value = 1},
  {op = \"set\", into = \"v1\", value = 2},
  {op = \"set\", into = \"v2\", value = 3},
]
";

// A handler that is called by its own walk.
const DEEP: &str = "[[handler]]
name = \"deep\"
type = \"root\"
answer = \"SUCCESS\"
ops = [
  {op = \"manage\", type = \"root\"},
]
";

// Registrations that end in a walk.
const LEAVING: &str = "[[handler]]
name = \"first\"
type = \"root\"
answer = \"SUCCESS\"
ops = [
  {op = \"unregister\", handle = 2},
  {op = \"unregister\", handle = 2},
  {op = \"unregister\", handle = 4294967296},
]
[[handler]]
name = \"second\"
type = \"root\"
answer = \"SUCCESS\"
ops = [
  {op = \"set\", into = \"v0\", value = 1},
]
[[handler]]
name = \"third\"
type = \"root\"
answer = \"SUCCESS\"
ops = [
  {op = \"unregister\", handle = 3},
]
";

// Registrations that come in a walk.
const COMING: &str = "[[handler]]
name = \"first\"
type = \"root\"
answer = \"SUCCESS\"
ops = [
  {op = \"register\", handler = \"second\", type = \"root\", into = \"v0\"},
]
[[handler]]
name = \"second\"
type = \"none\"
answer = \"SUCCESS\"
ops = [
  {op = \"set\", into = \"v1\", value = \"v0\"},
]
";

// What is asked for while 64 tokens are out.
const MORE: &str = "[[handler]]
name = \"more\"
type = \"root\"
answer = \"SUCCESS\"
ops = [
  {op = \"launch\", cpu = 1, procedure = \"store\", arg = 0, into = \"v0\"},
  {op = \"launch\", cpu = 1, procedure = \"none\", arg = 0, into = \"v0\"},
  {op = \"launch\", cpu = 0, procedure = \"store\", arg = 0, into = \"v0\"},
  {op = \"launch\", cpu = 3, procedure = \"store\", arg = 0, into = \"v0\"},
  {op = \"start\", cpu = 1, procedure = \"store\", arg = 0, into = \"v0\"},
  {op = \"check\", token = 1},
  {op = \"launch\", cpu = 1, procedure = \"store\", arg = 0, into = \"v0\"},
]
";

// Sessions, one after the other: the handlers, the boot processor, the units and the wave; and for each event the need, the
// number found and the label.
const RUNS: &str = "\
session working 0 64 1
look 1 begin:1
look 1 manage:root
look 1 call:0
present:1 1 -
put:1 0 -
raise:1 0 start:1:1:1:7
claim:1 1 refuse:1:busy
claim:1 1 check:1:NOT_READY
look 1 check:0:INVALID_PARAMETER
claim:1 1 read:1:RAX:8:0:NOT_READY
claim:1 1 write:1:RAX:8:9:NOT_READY
claim:1 2 collect:1
put:1 0 -
raise:1 0 start:1:2:0:8
look 1 check:1:SUCCESS
look 1 check:1:INVALID_PARAMETER
await:1 2 collect:1
look 1 wait:2:7:SUCCESS
look 1 wait:2:0:INVALID_PARAMETER
look 1 set:4:7
put:1 0 -
raise:1 0 start:1:3:1:258
claim:1 2 collect:1
look 1 check:3:SUCCESS
put:1 0 -
raise:1 0 start:1:4:2:5
claim:1 2 collect:1
look 1 read:1:RAX:1:2:SUCCESS
look 1 wait:4:0:UNSUPPORTED
look 1 set:4:7
put:1 0 -
raise:1 0 start:1:5:1:3
claim:1 2 collect:1
look 1 write:1:RAX:2:65541:SUCCESS
look 1 read:1:RAX:8:5:SUCCESS
look 1 return:0:SUCCESS
look 1 answer:SUCCESS
finished 0 -
session starting 0 64 1
look 1 begin:1
look 1 manage:root
look 1 call:0
present:1 1 -
put:1 0 -
raise:1 0 start:1:1:1:6
await:1 2 collect:1
put:1 0 -
raise:1 0 start:1:2:0:0
await:1 2 collect:1
look 1 set:2:6
put:1 0 -
raise:1 0 start:1:3:1:8
await:1 2 collect:1
put:1 0 -
raise:1 0 start:1:4:0:0
await:1 2 collect:1
look 1 set:2:8
look 1 check:3:SUCCESS
look 1 check:4:INVALID_PARAMETER
put:1 0 -
raise:1 0 start:1:5:2:5
await:1 2 collect:1
look 1 set:2:8
present:2 1 -
put:2 0 -
raise:2 0 start:2:6:0:0
await:2 2 collect:2
look 1 return:0:SUCCESS
look 1 answer:SUCCESS
finished 0 -
session absent 0 64 1
look 1 begin:1
look 1 manage:root
look 1 call:0
present:1 0 refuse:1:absent
present:1 0 refuse:1:absent
present:1 0 read:1:RAX:8:0:INVALID_PARAMETER
present:1 0 read:1:PROCESSOR_ID:8:0:NOT_FOUND
present:1 0 write:1:RAX:8:9:INVALID_PARAMETER
present:1 0 write:1:PROCESSOR_ID:8:9:SUCCESS
look 1 read:3:RAX:8:0:INVALID_PARAMETER
look 1 write:3:RAX:8:9:INVALID_PARAMETER
look 1 write:0:RAX:8:5:SUCCESS
look 1 read:0:RAX:8:5:SUCCESS
present:1 1 -
look 1 read:1:RAX:8:0:SUCCESS
look 1 read:1:PROCESSOR_ID:8:1:SUCCESS
present:2 1 -
look 1 write:2:CR0:8:9:UNSUPPORTED
look 1 read:2:GDTLIMIT:8:0:NOT_FOUND
look 1 read:2:RAX:9:0:INVALID_PARAMETER
look 1 read:2:RAX:0:0:INVALID_PARAMETER
look 1 return:0:SUCCESS
look 1 answer:SUCCESS
finished 0 -
session causes 0 64 1
look 1 begin:1
look 1 manage:root
look 1 call:0
look 1 refuse:3:range
look 1 refuse:3:range
look 1 refuse:0:self
look 1 refuse:0:self
look 1 refuse:1:unknown
look 1 refuse:1:unknown
present:1 1 -
put:1 0 -
raise:1 0 start:1:1:1:7
look 1 refuse:1:unknown
look 1 refuse:1:unknown
look 1 manage:00112233-4455-6677-8899-aabbccddeeff
look 1 answer:NOT_FOUND
look 1 alloc:0:0:INVALID_PARAMETER
look 1 alloc:64:0:OUT_OF_RESOURCES
look 1 free:4096:INVALID_PARAMETER
look 1 return:0:SUCCESS
look 1 answer:SUCCESS
finished 0 -
session three 2 4 1
look 1 begin:1
look 1 manage:root
look 1 call:0
look 1 set:0:1
look 1 set:1:2
look 1 spent
finished 0 -
session three 2 5 1
look 1 begin:1
look 1 manage:root
look 1 call:0
look 1 set:0:1
look 1 set:1:2
look 1 set:2:3
look 1 return:0:SUCCESS
look 1 answer:SUCCESS
finished 0 -
session three 2 5 2
look 1 begin:2
look 1 manage:root
look 1 call:0
look 1 set:0:1
look 1 set:1:2
look 1 set:2:3
look 1 return:0:SUCCESS
look 1 answer:SUCCESS
look 1 spent
finished 0 -
session three 1 64 0
look 1 begin:0
finished 0 -
session three 1 64 3
look 1 begin:3
finished 0 -
session deep 0 64 1
look 1 begin:1
look 1 manage:root
look 1 call:0
look 1 manage:root
look 1 call:0
look 1 manage:root
look 1 call:0
look 1 manage:root
look 1 call:0
look 1 deep:root
look 1 return:0:SUCCESS
look 1 answer:SUCCESS
look 1 return:0:SUCCESS
look 1 answer:SUCCESS
look 1 return:0:SUCCESS
look 1 answer:SUCCESS
look 1 return:0:SUCCESS
look 1 answer:SUCCESS
finished 0 -
session deep 0 5 1
look 1 begin:1
look 1 manage:root
look 1 call:0
look 1 manage:root
look 1 call:0
look 1 manage:root
look 1 spent
finished 0 -
session leaving 0 64 2
look 1 begin:2
look 1 manage:root
look 1 call:0
look 1 unregister:2:SUCCESS
look 1 unregister:2:NOT_FOUND
look 1 unregister:4294967296:NOT_FOUND
look 1 return:0:SUCCESS
look 1 call:2
look 1 unregister:3:SUCCESS
look 1 return:2:SUCCESS
look 1 answer:SUCCESS
look 1 manage:root
look 1 call:0
look 1 unregister:2:NOT_FOUND
look 1 unregister:2:NOT_FOUND
look 1 unregister:4294967296:NOT_FOUND
look 1 return:0:SUCCESS
look 1 answer:SUCCESS
finished 0 -
session coming 0 64 2
look 1 begin:2
look 1 manage:root
look 1 call:0
look 1 register:1:2:SUCCESS
look 1 return:0:SUCCESS
look 1 answer:SUCCESS
look 1 manage:root
look 1 call:0
look 1 register:1:3:SUCCESS
look 1 return:0:SUCCESS
look 1 call:1
look 1 set:1:3
look 1 return:1:SUCCESS
look 1 answer:SUCCESS
finished 0 -
session many 0 128 1
look 1 begin:1
look 1 manage:root
look 1 call:0
present:1 1 -
put:1 0 -
raise:1 0 start:1:1:1:0
";

// After 64 jobs with a token, of which 63 are done.
const RUNS_ON: &str = "\
look 1 return:0:SUCCESS
look 1 call:1
look 1 refuse:1:tokens
look 1 refuse:1:unknown
look 1 refuse:0:self
look 1 refuse:3:range
await:1 2 collect:1
put:1 0 -
raise:1 0 start:1:65:1:0
await:1 2 collect:1
look 1 check:1:SUCCESS
put:1 0 -
raise:1 0 start:1:66:1:0
look 1 return:1:SUCCESS
look 1 answer:SUCCESS
finished 0 -
";

const ZEROS: [u8; 1024] = [0; 1024];

#[derive(Drop)]
struct Session {
    server: Server,
    held: Held,
    others: Others,
}

#[derive(Clone, Copy)]
struct NeedText(Need);

impl fmt::Display for NeedText {
    fn fmt<W: fmt::Write>(&self, f: &mut fmt::Formatter<W>) -> fmt::Result {
        match self.0 {
            Need::Look => f.write_str("look"),
            Need::ClaimPresent(cpu) => write!(f, "present:{cpu}"),
            Need::ClaimBusy(cpu) => write!(f, "claim:{cpu}"),
            Need::AwaitBusy(cpu) => write!(f, "await:{cpu}"),
            Need::PutBusy(cpu) => write!(f, "put:{cpu}"),
            Need::RaiseRun(cpu) => write!(f, "raise:{cpu}"),
            Need::Finished => f.write_str("finished"),
        }
    }
}

fn handlers_of(name: &str) -> &'static str {
    match name {
        "working" => WORKING,
        "starting" => STARTING,
        "absent" => ABSENT,
        "causes" => CAUSES,
        "three" => THREE,
        "deep" => DEEP,
        "leaving" => LEAVING,
        "coming" => COMING,
        _ => MORE,
    }
}

// A handler that launches 64 times.
fn write_launches(text: &mut String) -> fmt::Result {
    text.write_str(
        "[[handler]]\nname = \"many\"\ntype = \"root\"\nanswer = \"SUCCESS\"\nops = [\n",
    )?;
    for _ in 0..64 {
        text.write_str(
            "{op = \"launch\", cpu = 1, procedure = \"store\", arg = 0, into = \"v0\"},\n",
        )?;
    }
    text.write_str("]\n")?;
    Ok(())
}

fn platform_text(alloc: Global, name: &str, units: u32) -> Result<String, fmt::Error> {
    let mut text = String::new(alloc);
    write!(text, "ops = {units}")?;
    text.write_str(PLATFORM)?;
    if name == "many" {
        write_launches(&mut text)?;
    }
    text.write_str(handlers_of(name))?;
    Ok(text)
}

fn blank_desk(alloc: Global) -> Option<BoxedDesk> {
    let image = Image::new(MapKind::Intel64, &ZEROS).ok()?;
    BoxedDesk::new(alloc, Desk { image, job: None }).ok()
}

// The desk of a processor, or those of the others.
fn desks(alloc: Global, processors: u16, me: u16, own: bool) -> Result<Desks, NoMemory> {
    let mut desks = Vec::with_capacity(alloc, usize::from(processors))?;
    for cpu in 0..processors {
        let desk = if (cpu == me) == own {
            blank_desk(alloc)
        } else {
            None
        };
        desks.push(desk)?;
    }
    Ok(Desks::new(desks))
}

fn begun(alloc: Global, setup: &Setup, me: u16, wave: u32) -> Option<Server> {
    let mut server = Server::new(alloc, setup).ok()?;
    if me >= server.processors() {
        return None;
    }
    server.begin(me, wave);
    Some(server)
}

fn session_on(alloc: Global, setup: Setup, me: u16, wave: u32) -> Option<Session> {
    let server = begun(alloc, &setup, me, wave)?;
    let own = desks(alloc, setup.processors, me, true).ok()?;
    let desks = desks(alloc, setup.processors, me, false).ok()?;
    Some(Session {
        server,
        held: Held { desks: own },
        others: Others { setup, desks },
    })
}

fn first_session(alloc: Global, line: &str) -> Option<Session> {
    let mut words = line.split(' ');
    let _session = words.next();
    let name = words.next().unwrap_or("");
    let me = words.next().unwrap_or("").parse().unwrap_or(64);
    let units = words.next().unwrap_or("").parse().unwrap_or(0);
    let wave = words.next().unwrap_or("").parse().unwrap_or(0);
    let text = platform_text(alloc, name, units).ok()?;
    let setup = read_platform(alloc, text.as_bytes()).ok()?;
    session_on(alloc, setup, me, wave)
}

fn next_event(session: &mut Option<Session>, found: u32) -> Option<(Need, Label)> {
    match session {
        Some(session) => turn(
            &mut session.server,
            &mut session.held,
            &mut session.others,
            found,
        ),
        None => None,
    }
}

// Takes a line of the runs as what to do, and tells what was done.
fn follow(
    alloc: Global,
    session: &mut Option<Session>,
    line: &str,
    told: &mut String,
) -> Result<(), Fail> {
    if line.starts_with("session ") {
        *session = first_session(alloc, line);
        writeln!(told, "{line}")?;
        return Ok(());
    }
    let found = line.split(' ').nth(1).unwrap_or("").parse().unwrap_or(0);
    let (need, label) = next_event(session, found).ok_or("no event")?;
    let need = NeedText(need);
    writeln!(told, "{need} {found} {label}")?;
    Ok(())
}

fn all_runs(alloc: Global) -> Result<String, Fail> {
    let mut runs = String::new(alloc);
    runs.write_str(RUNS)?;
    for job in 2..65 {
        write!(
            runs,
            "claim:1 2 collect:1\nput:1 0 -\nraise:1 0 start:1:{job}:1:0\n"
        )?;
    }
    runs.write_str(RUNS_ON)?;
    Ok(runs)
}

#[test]
fn each_event_of_serving_is_as_the_table_says(rt: HostRuntime) -> Result<(), Fail> {
    let runs = all_runs(rt.alloc())?;
    let mut told = String::new(rt.alloc());
    let mut session = None;
    for line in runs.as_str().lines() {
        follow(rt.alloc(), &mut session, line, &mut told)?;
    }
    assert_eq!(rt; told.as_str(), runs.as_str());
    Ok(())
}
