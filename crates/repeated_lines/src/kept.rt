ghost use Rattle.std.specs.Prelude.{◌≡◌, ◌≤◌, ◌<◌, take, IfSome, IsTrue};
ghost use Rattle.sync_words.specs.Texts.{event_line};
ghost use Rattle.trace_text.specs.Spelling.{StandsAt};

use sync_words::Event;

/// The most bytes of a line that is kept, with its line end. A longer one is told by its values, and seldom comes again.
pub(crate) const MOST: usize = 64;

/// How many lines that were read are kept.
pub(crate) const LINES: usize = 128;

/// How many lines that were written are kept.
pub(crate) const WRITTEN: usize = 256;

/// The line of an event, with its line end.
#[derive(Clone, Copy)]
pub(crate) struct KeptLine {
    pub processors: u16,
    pub event: Event,
    pub bytes: [u8; 64],
    pub len: usize,
    pub ghost within: { len ≤ 64 },
    pub ghost is_line: { take len bytes ≡ event_line processors event },
}

impl KeptLine {
    /// The line of an event, if it is short enough.
    pub fn new(processors: u16, event: Event, text: &[u8]) -> Option<KeptLine>
        requires { text.now ≡ event_line processors event }
        ensures { IfSome result (λ line. (line.processors ≡ processors) × (line.event ≡ event)) }
    {
        if text.len() > MOST {
            return None;
        }
        let mut bytes = [0; MOST];
        bytes[..text.len()].copy_from_slice(text);
        Some(KeptLine {
            processors,
            event,
            bytes,
            len: text.len(),
        })
    }

    /// The line's bytes.
    pub fn text(&self) -> &[u8]
        ensures { result.now ≡ event_line self.now.processors self.now.event }
    {
        &self.bytes[..self.len]
    }

    /// Does the line stand at this place?
    pub fn stands_at(&self, bytes: &[u8], at: usize) -> bool
        ensures { IsTrue result → StandsAt bytes.now at (event_line self.now.processors self.now.event) }
    {
        match bytes.get(at..) {
            Some(rest) => rest.starts_with(self.text()),
            None => false,
        }
    }
}
