ghost use Rattle.std.specs.Prelude.{◌≡◌, IfErr, OnOk};
ghost use Rattle.smm_base.specs.Calls.{Leads};
ghost use Rattle.smm_base.specs.Faults.{Rose};
ghost use Rattle.smm_base.specs.Sink.{GainsPrefix};
ghost use Rattle.smm_player.specs.Ending.{Finishes, TellsOrRunsOut};
ghost use Rattle.smm_player.specs.Refusal.{memory_line, refusal_line, refusal_status};

use crate::fault::Fault;
use crate::refusal::{Refusal, line_of};
use smm_base::{Sink, WriteError, write_all};
use std::alloc::Global;

// Tries the line for want of memory, for which no memory is taken.
pub(crate) fn end_without_memory<K: Sink>(out: &mut K) -> u8
    ensures status { result ≡ 8 }
    ensures prefix { GainsPrefix (K.written out.old) (K.written out.new) memory_line }
    ensures moved { Leads K.moves out.old out.new }
{
    match write_all(out, b"fault memory\n") {
        Ok(()) => 8,
        Err(_) => 8,
    }
}

// Tells a line, and answers the exit status that it is due with.
pub(crate) fn tell<K: Sink>(line: &[u8], status: u8, out: &mut K) -> u8
    ensures tells { TellsOrRunsOut (Rose (K.faults out.old) (K.faults out.new)) (K.written out.old) (K.written out.new) line.now status result }
    ensures moved { Leads K.moves out.old out.new }
{
    match write_all(out, line) {
        Ok(()) => status,
        Err(WriteError::Failed) => status,
        Err(WriteError::NoMemory) => end_without_memory(out),
    }
}

// Tells why an input file was refused, and answers the exit status.
fn tell_refusal<K: Sink>(alloc: Global, refusal: &Refusal, out: &mut K) -> u8
    ensures tells { TellsOrRunsOut (Rose (K.faults out.old) (K.faults out.new)) (K.written out.old) (K.written out.new) (refusal_line refusal.now) (refusal_status refusal.now) result }
    ensures moved { Leads K.moves out.old out.new }
{
    match line_of(alloc, refusal) {
        Ok(line) => tell(line.as_str().as_bytes(), refusal.status(), out),
        Err(_) => end_without_memory(out),
    }
}

// Ends a command that was done, or that came to a fault, and answers the exit status.
pub(crate) fn finish<K: Sink>(alloc: Global, done: Result<(), Fault>, out: &mut K) -> u8
    ensures done { OnOk done ((result ≡ 0) × (K.written out.new ≡ K.written out.old)) }
    ensures finishes { IfErr done (Finishes (Rose (K.faults out.old) (K.faults out.new)) (K.written out.old) (K.written out.new) result) }
    ensures moved { Leads K.moves out.old out.new }
{
    match done {
        Ok(()) => 0,
        Err(Fault::Refused(refusal)) => tell_refusal(alloc, &refusal, out),
        Err(Fault::Write) => 7,
        Err(Fault::Save) => 7,
        Err(Fault::Memory) => end_without_memory(out),
    }
}
