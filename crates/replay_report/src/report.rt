ghost use Rattle.std.specs.Prelude.{◌≡◌, ◌<◌, ◌+◌, ◌^◌, ◌++◌, [], IfOk, IsErrOf, OnErr, OnOk};
ghost use Rattle.smm_base.specs.Calls.{Leads};
ghost use Rattle.smm_base.specs.Faults.{Rose};
ghost use Rattle.smm_base.specs.Sink.{appended, GainsPrefix};
ghost use Rattle.sync_words.specs.Texts.{event_line};
ghost use Rattle.replay_report.specs.Report.{is_end, is_wave, is_served, one_if, event_lines, AreCounts, last_line, report_text, IsBuffered};

use repeated_lines::LineWriter;
use smm_base::{NoMemory, Sink, WriteError, write_all};
use std::alloc::Global;
use sync_words::{Event, Label};
use trace_text::{Totals, write_line};

/// How many bytes of a report are handed to the sink at once, at most.
const PIECE: usize = 65536;

/// How many bytes a line has, at most.
const LINE: usize = 128;

/// Writes the report of a run on so many processors: the line of each event in order, and a last
/// line with `complete` or `unfinished` and the numbers of events, of ended sessions and of waves
/// that were announced and not served. It goes out in pieces of at most 65,536 bytes.
///
/// # Errors
///
/// `Failed` where a write failed or took nothing: then the sink's count of faults rose. `NoMemory`
/// for want of memory. On both the sink has gained some front part of the report, maybe none of it.
pub fn write_report<K: Sink>(
    alloc: Global,
    processors: u16,
    events: &[Event],
    complete: bool,
    out: &mut K,
) -> Result<(), WriteError>
    ensures appends { OnOk result (K.written out.new ≡ appended (K.written out.old) (report_text processors events.now complete)) }
    ensures prefix { OnErr result (GainsPrefix (K.written out.old) (K.written out.new) (report_text processors events.now complete)) }
    ensures failed { IsErrOf result WriteError.Failed → Rose (K.faults out.old) (K.faults out.new) }
    ensures moved { Leads K.moves out.old out.new }
{
    let mut buffer = Vec::with_capacity(alloc, PIECE)?;
    let counts = write_lines(processors, events, &mut buffer, out)?;
    push_last_line(events, counts, complete, &mut buffer, out)?;
    write_all(out, &buffer)
}

// Hands over the lines of the events, but for what is still in the buffer, and counts the events.
fn write_lines<K: Sink>(
    processors: u16,
    events: &[Event],
    buffer: &mut Vec<u8>,
    out: &mut K,
) -> Result<Counts, WriteError>
    requires { buffer.old.items ≡ [] }
    ensures counted { IfOk result (λ counts. AreCounts counts events.now) }
    ensures buffered { OnOk result (IsBuffered (K.written out.old) (K.written out.new) buffer.new.items (event_lines processors events.now)) }
    ensures prefix { OnErr result (GainsPrefix (K.written out.old) (K.written out.new) (event_lines processors events.now)) }
    ensures failed { IsErrOf result WriteError.Failed → Rose (K.faults out.old) (K.faults out.new) }
    ensures moved { Leads K.moves out.old out.new }
{
    let mut lines = LineWriter::new(processors);
    let mut counts = Counts::new();
    for event in events {
        push_line(&mut lines, event, buffer, out)?;
        counts.add(&event.label);
    }
    Ok(counts)
}

// Adds an event's line to the buffer, which is handed over before where it might not fit.
fn push_line<K: Sink>(
    lines: &mut LineWriter,
    event: &Event,
    buffer: &mut Vec<u8>,
    out: &mut K,
) -> Result<(), WriteError>
    ensures buffered { OnOk result (IsBuffered (K.written out.old) (K.written out.new) buffer.new.items (buffer.old.items ++ event_line lines.old event.now)) }
    ensures prefix { OnErr result (GainsPrefix (K.written out.old) (K.written out.new) buffer.old.items) }
    ensures failed { IsErrOf result WriteError.Failed → Rose (K.faults out.old) (K.faults out.new) }
    ensures platform { lines.new ≡ lines.old }
    ensures moved { Leads K.moves out.old out.new }
{
    make_room(buffer, out)?;
    lines.write(event, buffer).map_err(|_| WriteError::NoMemory)
}

// Adds the last line to the buffer, which is handed over before where it might not fit.
fn push_last_line<K: Sink>(
    events: &[Event],
    counts: Counts,
    complete: bool,
    buffer: &mut Vec<u8>,
    out: &mut K,
) -> Result<(), WriteError>
    requires { AreCounts counts events.now }
    ensures buffered { OnOk result (IsBuffered (K.written out.old) (K.written out.new) buffer.new.items (buffer.old.items ++ last_line events.now complete)) }
    ensures prefix { OnErr result (GainsPrefix (K.written out.old) (K.written out.new) buffer.old.items) }
    ensures failed { IsErrOf result WriteError.Failed → Rose (K.faults out.old) (K.faults out.new) }
    ensures moved { Leads K.moves out.old out.new }
{
    make_room(buffer, out)?;
    push_counts(events, counts, complete, buffer).map_err(|_| WriteError::NoMemory)
}

// Hands the buffer over where a further line might not fit.
fn make_room<K: Sink>(buffer: &mut Vec<u8>, out: &mut K) -> Result<(), WriteError>
    ensures buffered { OnOk result (IsBuffered (K.written out.old) (K.written out.new) buffer.new.items buffer.old.items) }
    ensures prefix { OnErr result (GainsPrefix (K.written out.old) (K.written out.new) buffer.old.items) }
    ensures failed { IsErrOf result WriteError.Failed → Rose (K.faults out.old) (K.faults out.new) }
    ensures moved { Leads K.moves out.old out.new }
{
    if buffer.len() > PIECE - LINE {
        write_all(out, buffer)?;
        buffer.clear();
    }
    Ok(())
}

/// Appends the last line of the report of these events.
pub fn push_totals(events: &[Event], complete: bool, out: &mut Vec<u8>) -> Result<(), NoMemory>
    ensures { OnOk result (out.new.items ≡ out.old.items ++ last_line events.now complete) }
{
    push_counts(events, count(events), complete, out)
}

// Appends the last line of the report of these events, which were counted.
fn push_counts(
    events: &[Event],
    counts: Counts,
    complete: bool,
    out: &mut Vec<u8>,
) -> Result<(), NoMemory>
    requires { AreCounts counts events.now }
    ensures { OnOk result (out.new.items ≡ out.old.items ++ last_line events.now complete) }
{
    let totals = Totals {
        complete,
        events: events.len() as u64,
        sessions: counts.sessions,
        unserved: counts.announced.saturating_sub(counts.served),
    };
    write_line(totals, out)
}

// What is counted of events: the sessions that ended, the waves that were announced, and those that were served.
#[derive(Clone, Copy)]
struct Counts {
    sessions: u64,
    announced: u64,
    served: u64,
}

impl Counts {
    fn new() -> Counts
        ensures { AreCounts result [] }
    {
        Counts {
            sessions: 0,
            announced: 0,
            served: 0,
        }
    }

    // Counts the event with this label.
    fn add(&mut self, label: &Label)
        requires sessions { self.old.sessions + 1 < 2 ^ 64 }
        requires announced { self.old.announced + 1 < 2 ^ 64 }
        requires served { self.old.served + 1 < 2 ^ 64 }
        ensures sessions { self.new.sessions ≡ self.old.sessions + one_if (is_end label.now) }
        ensures announced { self.new.announced ≡ self.old.announced + one_if (is_wave label.now) }
        ensures served { self.new.served ≡ self.old.served + one_if (is_served label.now) }
    {
        self.sessions += one_if(ends_session(label));
        self.announced += one_if(announces_wave(label));
        self.served += one_if(serves_wave(label));
    }
}

fn count(events: &[Event]) -> Counts
    ensures { AreCounts result events.now }
{
    let mut counts = Counts::new();
    for event in events {
        counts.add(&event.label);
    }
    counts
}

fn one_if(test: bool) -> u64
    ensures { result ≡ one_if test }
{
    if test { 1 } else { 0 }
}

fn ends_session(label: &Label) -> bool
    ensures { result ≡ is_end label.now }
{
    matches!(label, Label::End)
}

fn announces_wave(label: &Label) -> bool
    ensures { result ≡ is_wave label.now }
{
    matches!(label, Label::Wave(_))
}

fn serves_wave(label: &Label) -> bool
    ensures { result ≡ is_served label.now }
{
    matches!(label, Label::Served(wave) if *wave != 0)
}
