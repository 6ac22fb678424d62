use crate::counting::Pieces;
use replay_report::write_report;
use smm_base::{MemSink, WriteError};
use std::test::Fail;
use sync_words::{Access, Event, Label, Register, Status, WordId};

/// How many bytes of a report are handed over at once, at most.
const PIECE: usize = 65536;

// An event of the chipset, the last actor of one processor.
fn labelled(word: WordId, label: Label) -> Event {
    Event {
        actor: 1,
        word,
        access: Access::Put(1),
        found: 0,
        label,
    }
}

#[test]
fn a_report_goes_out_whole_in_small_pieces(rt: HostRuntime) -> Result<(), Fail> {
    let alloc = rt.alloc();
    let events = [
        labelled(WordId::Source, Label::Wave(1)),
        labelled(WordId::Source, Label::Wave(2)),
        labelled(WordId::Source, Label::Served(1)),
        labelled(WordId::Source, Label::Served(0)),
        labelled(WordId::Counter, Label::End),
    ];
    let mut sink = MemSink::new(alloc, 10, Vec::new(alloc))?;
    write_report(alloc, 1, &events, false, &mut sink)?;
    let want = b"chip source put:1 0 wave:1\n\
        chip source put:1 0 wave:2\n\
        chip source put:1 0 served:1\n\
        chip source put:1 0 served:0\n\
        chip counter put:1 0 end\n\
        unfinished events 5 sessions 1 unserved 1\n";
    assert_eq!(rt; sink.bytes().as_slice(), want.as_slice());
    Ok(())
}

#[test]
fn a_report_stops_at_a_write_that_fails(rt: HostRuntime) -> Result<(), Fail> {
    let alloc = rt.alloc();
    let events = [labelled(WordId::Except, Label::Excepted(1))];
    let mut sink = MemSink::new(alloc, 10, vec![in alloc; 2]?)?;
    let written = write_report(alloc, 1, &events, true, &mut sink);
    assert_eq!(rt; written, Err(WriteError::Failed));
    assert_eq!(rt; sink.bytes().as_slice(), b"chip excep".as_slice());
    Ok(())
}

#[test]
fn a_long_report_goes_out_in_pieces_that_fit(rt: HostRuntime) -> Result<(), Fail> {
    let alloc = rt.alloc();
    let longest = Event {
        actor: 65_534,
        word: WordId::Present(65_533),
        access: Access::Claim(16_777_214, 16_777_213),
        found: 16_777_212,
        label: Label::Read {
            cpu: 65_532,
            register: Register::ProcessorId,
            width: 4_294_967_295,
            value: 18_446_744_073_709_551_615,
            status: Status::InterruptPending,
        },
    };
    let events = vec![in alloc; longest; 1000]?;
    let mut sink = Pieces {
        longest: 0,
        count: 0,
    };
    write_report(alloc, 65_535, &events, true, &mut sink)?;
    assert!(rt; sink.longest <= PIECE);
    assert_eq!(rt; sink.count, 2);
    Ok(())
}
