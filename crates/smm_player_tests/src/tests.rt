use crate::counting::{Counting, Full};
use smm_base::{MemSink, MemStore, NoMemory};
use smm_player::play;
use std::alloc::Global;
use std::test::Fail;

const PLATFORM: &str = "version = 1
processors = 1
map = \"intel64\"
policy = \"elected\"
mode = \"traditional\"
polls = [8, 8]
visits = 3
ops = 64

[[wave]]
status = [\"prompt\"]
manage = [\"root\"]
";

const TWO_PROCESSORS: &str = "version = 1
processors = 2
map = \"intel64\"
policy = \"elected\"
mode = \"traditional\"
polls = [8, 8]
visits = 3
ops = 64

[[wave]]
status = [\"prompt\", \"prompt\"]
manage = [\"root\"]
";

const REPORT: &str = "chip except put:0 0 excepted:0
chip source put:1 0 wave:1
chip pend0 raise:1 0 -
p0 pend0 take 1 enter
unfinished events 4 sessions 0 unserved 1
";

// The file of one image, whose bytes are 0.
fn images(alloc: Global) -> Result<Vec<u8>, NoMemory> {
    let mut bytes = Vec::from_slice(alloc, b"SMIM\x01\x00\x01\x00\x01\x00\x00\x00")?;
    bytes.resize(1036, 0)?;
    Ok(bytes)
}

// The file of two images, whose bytes are 0 and 7.
fn two_images(alloc: Global) -> Result<Vec<u8>, NoMemory> {
    let mut bytes = Vec::from_slice(alloc, b"SMIM\x01\x00\x01\x00\x02\x00\x00\x00")?;
    bytes.resize(1036, 0)?;
    bytes.resize(2060, 7)?;
    Ok(bytes)
}

// A store with platforms, images and schedules for one processor, and for two.
fn store(alloc: Global) -> Result<MemStore, NoMemory> {
    let mut store = MemStore::new(alloc)?;
    store.put("P", PLATFORM.as_bytes())?;
    store.put("I", &images(alloc)?)?;
    store.put("S", b"1*3 0")?;
    store.put("Q", TWO_PROCESSORS.as_bytes())?;
    store.put("J", &two_images(alloc)?)?;
    store.put("T", b"2*4 0 1")?;
    store.put("U", b"2 3")?;
    Ok(store)
}

// The words of a line.
fn words(alloc: Global, line: &str) -> Result<Vec<String>, NoMemory> {
    let mut words = Vec::new(alloc);
    for word in line.split(' ') {
        words.push(String::from_str(alloc, word)?)?;
    }
    Ok(words)
}

// What a command comes to: its status, what it told, and how often it loaded.
fn told(alloc: Global, line: &str) -> Result<String, NoMemory> {
    let mut store = Counting {
        store: store(alloc)?,
        loads: 0,
        strange: 0,
    };
    let mut sink = MemSink::new(alloc, 7, Vec::new(alloc))?;
    let status = play(alloc, &words(alloc, line)?, &mut store, &mut sink);
    let text = str::from_utf8(sink.bytes().as_slice()).unwrap_or("?");
    let loads = store.loads;
    let strange = store.strange;
    Ok(format!(in alloc; "{status} {loads} {strange} {text}")?)
}

// Words, and behind the bar the status, how many loads there were, how many of another file, and the line.
const COMMANDS: &str = "step P I|1 0 0 fault usage
step P I S -A|1 0 0 fault usage
step X X X A|6 1 0 fault read X
step P X S A|6 2 0 fault read X
step P I X A|6 3 0 fault read X
step S X X A|2 1 0 fault platform not-toml
step P S X A|3 2 0 fault images short 5
step P I P A|4 3 0 fault schedule token 0
step Q I T A|3 2 0 fault images count-differs 2 1
step P J S A|3 2 0 fault images count-differs 1 2
step Q J U A|4 3 0 fault schedule actor 2 3
step P I U A|4 3 0 fault schedule actor 0 2
make 1|1 0 0 fault usage
make 1 0|1 0 0 fault usage
make 1 65|1 0 0 fault usage
make 1 02|1 0 0 fault usage
make 01 2|1 0 0 fault usage
make +1 2|1 0 0 fault usage
make 4294967296 2|1 0 0 fault usage
sum -1 2|1 0 0 fault usage
sum 1 x|1 0 0 fault usage
sum 1 1|0 0 0 complete events 72 sessions 2 unserved 0";

#[test]
fn files_are_loaded_in_their_order_and_no_others(rt: HostRuntime) -> Result<(), Fail> {
    let alloc = rt.alloc();
    for line in COMMANDS.lines() {
        let Some((words, want)) = line.split_once('|') else {
            continue;
        };
        let told = told(alloc, words)?;
        assert_eq!(rt; told.trim_end(), want);
    }
    Ok(())
}

// What a step comes to where these calls of the store and of the sink fail.
fn failing(alloc: Global, load: u64, write: u64) -> Result<String, NoMemory> {
    let mut store = store(alloc)?;
    store.fail_at(vec![in alloc; load]?);
    let mut sink = MemSink::new(alloc, 4096, vec![in alloc; write]?)?;
    let status = play(alloc, &words(alloc, "step P I S A")?, &mut store, &mut sink);
    let text = str::from_utf8(sink.bytes().as_slice()).unwrap_or("?");
    let saved = store.file("A").is_some();
    Ok(format!(in alloc; "{status} {saved} {text}")?)
}

#[test]
fn faults_of_the_outside_end_a_command(rt: HostRuntime) -> Result<(), Fail> {
    let alloc = rt.alloc();
    for (load, write, want) in [
        (1, 9, "6 false fault read P\n"),
        (2, 9, "6 false fault read I\n"),
        (3, 9, "6 false fault read S\n"),
        (3, 1, "6 false "),
        (9, 1, "7 false "),
    ] {
        assert_eq!(rt; failing(alloc, load, write)?.as_str(), want);
    }
    let unsaved = failing(alloc, 4, 9)?;
    assert_eq!(rt; unsaved.strip_prefix("7 false "), Some(REPORT));
    Ok(())
}

#[test]
fn want_of_memory_ends_a_command(rt: HostRuntime) -> Result<(), Fail> {
    let alloc = rt.alloc();
    let mut store = store(alloc)?;
    let step = words(alloc, "step P I S A")?;
    assert_eq!(rt; play(alloc, &step, &mut store, &mut Full), 8);
    assert!(rt; store.file("A").is_none());
    let mut sink = MemSink::new(alloc, 4096, Vec::new(alloc))?;
    assert_eq!(rt; play(alloc, &step, &mut store, &mut sink), 0);
    assert_eq!(rt; sink.bytes().as_slice(), REPORT.as_bytes());
    Ok(())
}
