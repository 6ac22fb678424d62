ghost use Rattle.std.specs.Prelude.{◌≡◌, ◌≤◌, take, length, IfSome};
ghost use Rattle.sync_words.specs.Texts.{event_line};
ghost use Rattle.repeated_lines.specs.Parts.{opening, ending};

use crate::kept::MOST;
use crate::same::opens_as;
use sync_words::Event;

/// How many openings are kept.
pub(crate) const OPENINGS: usize = 256;

/// The opening of the line of an event with a job: the bytes that come again with the next job.
#[derive(Clone, Copy)]
pub(crate) struct KeptOpening {
    processors: u16,
    event: Event,
    bytes: [u8; 64],
    len: usize,
    ghost within: { len ≤ 64 },
    ghost is_opening: { take len bytes ≡ opening processors event },
}

impl KeptOpening {
    /// The opening of an event, if it is short enough.
    pub fn new(processors: u16, event: Event, text: &[u8]) -> Option<KeptOpening>
        requires { text.now ≡ opening processors event }
    {
        if text.len() > MOST {
            return None;
        }
        let mut bytes = [0; MOST];
        bytes[..text.len()].copy_from_slice(text);
        Some(KeptOpening {
            processors,
            event,
            bytes,
            len: text.len(),
        })
    }

    /// The opening of an event's line, where it is of an event that opens alike.
    pub fn text(&self, processors: u16, event: &Event) -> Option<&[u8]>
        ensures opens { IfSome result (λ text. text.now ≡ opening processors event.now) }
        ensures short { IfSome result (λ text. length text.now ≤ 64) }
    {
        if self.processors == processors && opens_as(&self.event, event) {
            Some(&self.bytes[..self.len])
        } else {
            None
        }
    }
}

/// The opening of an event's line, which has an ending of so many bytes.
pub(crate) fn opening_of(
    processors: u16,
    event: &Event,
    line: &[u8],
    rest: usize,
) -> Option<KeptOpening>
    requires line { line.now ≡ event_line processors event.now }
    requires rest { length (ending event.now.label) ≡ rest }
{
    let len = line.len().checked_sub(rest)?;
    KeptOpening::new(processors, *event, &line[..len])
}
