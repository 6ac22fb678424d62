use smm_base::{
    DirStore, Gate, LoadError, MemSink, MemStore, OpenGate, SaveError, Sink, Store, WriteError,
    write_all,
};
use std::fs;
use std::test::Fail;

#[test]
fn a_store_in_memory_refuses_at_the_stated_calls(rt: HostRuntime) -> Result<(), Fail> {
    let alloc = rt.alloc();
    let mut store = MemStore::new(alloc)?;
    store.put("A", b"abc")?;
    store.fail_at(vec![in alloc; 3, 4]?);
    let refusals = [LoadError::TooLong, LoadError::Missing, LoadError::Failed];
    for (name, want) in ["A", "B", "A"].iter().zip(refusals) {
        assert_eq!(rt; store.load(alloc, name, 2).err(), Some(want));
    }
    assert_eq!(rt; store.save("A", b"x"), Err(SaveError::Failed));
    assert_eq!(rt; store.file("A"), Some(b"abc".as_slice()));
    let loaded = store.load(alloc, "A", 3)?;
    assert_eq!(rt; loaded.as_slice(), b"abc".as_slice());
    Ok(())
}

#[test]
fn a_sink_in_memory_takes_a_part_of_each_piece(rt: HostRuntime) -> Result<(), Fail> {
    let alloc = rt.alloc();
    let mut sink = MemSink::new(alloc, 3, vec![in alloc; 4]?)?;
    assert_eq!(rt; sink.write(b"ab"), Ok(2));
    assert_eq!(rt; sink.write(b"cdefg"), Ok(3));
    assert_eq!(rt; write_all(&mut sink, b"fghij"), Err(WriteError::Failed));
    assert_eq!(rt; write_all(&mut sink, b"klmno"), Ok(()));
    assert_eq!(rt; sink.bytes().as_slice(), b"abcdefghklmno".as_slice());
    Ok(())
}

#[test]
fn the_working_folder_keeps_a_file(rt: HostRuntime) -> Result<(), Fail> {
    let alloc = rt.alloc();
    let mut store = DirStore::new(&rt);
    store.save("smm_base_file", b"abc")?;
    let loaded = store.load(alloc, "smm_base_file", 3)?;
    let long = store.load(alloc, "smm_base_file", 2).err();
    fs::remove_file(&rt, "smm_base_file")?;
    let missing = store.load(alloc, "smm_base_file", 3).err();
    assert_eq!(rt; loaded.as_slice(), b"abc".as_slice());
    assert_eq!(rt; long, Some(LoadError::TooLong));
    assert_eq!(rt; missing, Some(LoadError::Missing));
    assert_eq!(rt; store.load(alloc, ".", 3).err(), Some(LoadError::Failed));
    assert_eq!(rt; store.save(".", b"abc"), Err(SaveError::Failed));
    Ok(())
}

fn is_shared<T: Send + Sync>(_: &T) {}

#[test]
fn threads_share_the_open_gate(_: HostRuntime) {
    let gate = OpenGate;
    is_shared(&gate);
    gate.pass(1);
}
