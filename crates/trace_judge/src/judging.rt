ghost use Rattle.std.specs.Prelude.{◌≡◌, ◌+◌, ◌-◌, ◌<◌, ◌^◌, Ok, OnOk};
ghost use Rattle.trace_judge.specs.Tallies.{IsTallyBelow};
ghost use Rattle.trace_judge.specs.Verdicts.{advanced, answer_to, by_answer, closed, event_at, last_at, last_verdict, line_of, verdict};

use crate::fault::{LineFault, TraceFault};
use crate::tally::Tally;
use crate::walk::Walk;
use repeated_lines::LineReader;
use sync_words::Event;
use trace_check::Machine;
use trace_text::{Totals, read_last};

/// The rule that the numbers of the last line are the trace's.
const NUMBERS: u8 = 32;

// The event whose line stands at a place, and the place behind it.
fn event_at(lines: &mut LineReader, bytes: &[u8], at: usize) -> Option<(Event, usize)>
    ensures event { result ≡ event_at lines.old bytes.now at }
    ensures platform { lines.new ≡ lines.old }
{
    lines.read(bytes, at).ok()
}

// The last line that stands at a place, and the place behind it.
fn last_at(bytes: &[u8], at: usize) -> Option<(Totals, usize)>
    ensures { result ≡ last_at bytes.now at }
{
    read_last(bytes, at)
}

// Nothing may follow the last line.
fn close(bytes: &[u8], line: u64, next: usize) -> Result<(), TraceFault>
    requires { line + 1 < 2 ^ 64 }
    ensures { result ≡ closed bytes.now line next }
{
    if next == bytes.len() {
        Ok(())
    } else {
        Err(TraceFault {
            line: line + 1,
            fault: LineFault::Text,
        })
    }
}

// Where no event's line stands, a last line must.
fn end(walk: &Walk, bytes: &[u8]) -> Result<(), TraceFault>
    requires { walk.now.tally.events + 2 < 2 ^ 64 }
    ensures { result ≡ last_verdict bytes.now walk.now (last_at bytes.now walk.now.at) }
{
    let line = walk.tally.events + 1;
    match last_at(bytes, walk.at) {
        None => Err(TraceFault {
            line,
            fault: LineFault::Text,
        }),
        Some((totals, next)) => {
            if walk.tally.is_told(totals) {
                close(bytes, line, next)
            } else {
                Err(TraceFault {
                    line,
                    fault: LineFault::Rule(NUMBERS),
                })
            }
        }
    }
}

// Judges an event, and goes on behind its line where it breaks no rule.
#[tactic(auto, unfolding(crate::specs::Verdicts::answer_to, crate::specs::Verdicts::judged_after))]
fn take(walk: &mut Walk, event: &Event, next: usize) -> Result<(), TraceFault>
    requires { IsTallyBelow (2 ^ 64 - 1) walk.old.tally }
    ensures answer { result ≡ by_answer (line_of walk.old) (answer_to walk.old.machine event.now) (Ok tt) }
    ensures accepted { OnOk result (answer_to walk.old.machine event.now ≡ Ok tt) }
    ensures advanced { OnOk result (walk.new ≡ advanced walk.old (event.now, next)) }
{
    match walk.machine.accept(event.actor, &event.label) {
        Ok(()) => {
            walk.at = next;
            walk.tally = walk.tally.counted(event.label);
            Ok(())
        }
        Err(broken) => Err(TraceFault {
            line: walk.tally.events + 1,
            fault: LineFault::Rule(broken.rule),
        }),
    }
}

/// Judges a trace on a platform of so many processors, whose checker is at the beginning: `Ok` where it is a run and its last
/// line has its numbers. No memory is taken, and no event is kept.
///
/// # Errors
///
/// The first line at fault.
pub fn judge(machine: Machine, processors: u16, bytes: &[u8]) -> Result<(), TraceFault>
    ensures { result ≡ verdict processors machine bytes.now }
{
    let mut walk = Walk {
        machine,
        at: 0,
        tally: Tally::new(),
    };
    let mut lines = LineReader::new(processors);
    for _line in 0..bytes.len() {
        match event_at(&mut lines, bytes, walk.at) {
            Some((event, next)) => take(&mut walk, &event, next)?,
            None => return end(&walk, bytes),
        }
    }
    Err(TraceFault {
        line: walk.tally.events + 1,
        fault: LineFault::Text,
    })
}
