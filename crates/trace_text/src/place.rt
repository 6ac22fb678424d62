ghost use Rattle.std.specs.Prelude.{◌≡◌, nat_lt, codes};
ghost use Rattle.trace_text.specs.Readings.{tested, number_after, actor_of, processor_word, word_of, is_word};

use crate::field::Field;
use sync_words::WordId;

// The number behind a name.
fn number_after(name: &str, text: &str) -> Option<u16>
    ensures { result ≡ number_after name.now text.now }
{
    u16::read(text.strip_prefix(name)?)
}

// The number of a processor behind `p`.
fn read_processor(n: u16, text: &str) -> Option<u16>
    ensures { result ≡ tested (λ number. nat_lt number n) (number_after (codes "p") text.now) }
{
    match number_after("p", text) {
        Some(number) if number < n => Some(number),
        _ => None,
    }
}

/// Who acted, where there are `n` processors.
pub(crate) fn read_actor(n: u16, text: &str) -> Option<u16>
    ensures { result ≡ actor_of n text.now }
{
    if text == "chip" {
        return Some(n);
    }
    read_processor(n, text)
}

// A word of which there is one for each processor.
fn read_processor_word(text: &str) -> Option<WordId>
    ensures { result ≡ processor_word text.now }
{
    if let Some(cpu) = number_after("pend", text) {
        return Some(WordId::Pend(cpu));
    }
    if let Some(cpu) = number_after("present", text) {
        return Some(WordId::Present(cpu));
    }
    if let Some(cpu) = number_after("run", text) {
        return Some(WordId::Run(cpu));
    }
    Some(WordId::Busy(number_after("busy", text)?))
}

/// A word, whatever its processor's number is.
impl Field for WordId {
    ghost reading = { word_of };

    fn read(text: &str) -> Option<Self> {
        match text {
            "counter" => Some(WordId::Counter),
            "bsp" => Some(WordId::Bsp),
            "inside" => Some(WordId::Inside),
            "insync" => Some(WordId::Insync),
            "source" => Some(WordId::Source),
            "except" => Some(WordId::Except),
            _ => read_processor_word(text),
        }
    }
}

/// Is there such a word, where there are `n` processors?
pub(crate) fn is_word(n: u16, word: WordId) -> bool
    ensures { result ≡ is_word n word }
{
    match word {
        WordId::Pend(cpu) | WordId::Present(cpu) | WordId::Run(cpu) | WordId::Busy(cpu) => cpu < n,
        WordId::Counter
        | WordId::Bsp
        | WordId::Inside
        | WordId::Insync
        | WordId::Source
        | WordId::Except => true,
    }
}
