ghost use Rattle.std.specs.Prelude.{◌≡◌, ◌∷◌, ◌++◌, [], IfSome, OnOk, OnErr};
ghost use Rattle.sync_words.specs.Texts.{line_end, event_line};

use arrayvec::ArrayString;
use smm_base::NoMemory;
use std::fmt::{Display, Write};
use sync_words::{Event, EventLine};

/// Room for a line with its line end. No event that can be read back has a longer one.
pub(crate) const LINE: usize = 128;

/// Appends the one line of an event, with its line end, where there are `n` processors: the actor with
/// that number is printed as `chip`. Takes no memory but what `out` grows by.
///
/// # Errors
///
/// `NoMemory` where `out` can't grow. Then it holds what it held.
pub fn write_event(n: u16, event: &Event, out: &mut Vec<u8>) -> Result<(), NoMemory>
    ensures gains_line { OnOk result (out.new.items ≡ out.old.items ++ event_line n event.now) }
    ensures stays { OnErr result (out.new.items ≡ out.old.items) }
{
    let event = *event;
    write_line(
        EventLine {
            processors: n,
            event,
        },
        out,
    )
}

/// Appends what a value prints, and a line end.
///
/// # Errors
///
/// `NoMemory` where `out` can't grow, or where the line has more than 128 bytes. Then it holds what it held.
pub fn write_line<D: Display + Drop>(text: D, out: &mut Vec<u8>) -> Result<(), NoMemory>
    ensures gains_line { OnOk result (IfSome (D.output text) (λ bytes. out.new.items ≡ out.old.items ++ (bytes ++ line_end ∷ []))) }
    ensures stays { OnErr result (out.new.items ≡ out.old.items) }
{
    let mut line: ArrayString<LINE> = ArrayString::new();
    match writeln!(line, "{text}") {
        Ok(()) => {
            out.extend_from_slice(line.as_str().as_bytes())?;
            Ok(())
        }
        Err(_) => Err(NoMemory),
    }
}
