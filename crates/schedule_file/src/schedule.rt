ghost use Rattle.std.specs.Prelude.{◌≡◌, ◌≤◌, ◌⊎◌, length, All, Ok, Err, IfOk, IfErr};
ghost use Rattle.schedule_file.specs.Schedule.{is_blank, schedule_of};

use crate::actors::add_part;
use crate::error::ScheduleError;
use std::alloc::Global;

// Whether a byte parts items.
fn is_blank(byte: u8) -> bool
    ensures { result ≡ is_blank byte }
{
    matches!(byte, b' ' | b'\t' | b'\n')
}

/// The actors of a text in their order, on a platform of n processors: 0 to n, where n is the chipset.
///
/// The text has items between spaces, tabs and line ends. An item is an actor's number or the word
/// `all`, alone or with `*` and a count from 1 to 65535; numbers are decimal, with no leading zero.
/// `all` stands for the actors 0 to n in turn. The first item that is of another form, or names
/// an actor above n, is told with the byte at which it starts; where all items are right, more than
/// 4,194,304 actors are `TooLong`. `NoMemory` may come in place of any other answer.
pub fn read_schedule(alloc: Global, bytes: &[u8], n: u16) -> Result<Vec<u16>, ScheduleError>
    ensures read { IfOk result (λ actors. schedule_of n bytes.now ≡ Ok actors.items) }
    ensures known { IfOk result (λ actors. All (λ actor. actor ≤ n) actors.items) }
    ensures few { IfOk result (λ actors. length actors.items ≤ 4194304) }

    // Every other answer than want of memory is the text's own.
    ensures refused { IfErr result (λ error. (error ≡ ScheduleError.NoMemory) ⊎ (schedule_of n bytes.now ≡ Err error)) }
{
    let mut listed = Some(Vec::new(alloc));
    let mut at = 0;
    for part in bytes.split(|byte| is_blank(*byte)) {
        listed = add_part(listed, part, at, n)?;
        at += part.len() + 1;
    }
    listed.ok_or(ScheduleError::TooLong)
}
