ghost use Rattle.std.specs.Prelude.{◌≡◌, ◌<◌, ◌==◌, length, position, IfSome};
ghost use Rattle.std.specs.Option.{option_map};
ghost use Rattle.sync_words.specs.Texts.{colon, space};
ghost use Rattle.trace_text.specs.Readings.{split_first};

// Where a byte stands first.
fn find(byte: u8, text: &str) -> Option<usize>
    ensures place { result ≡ position (λ b. b == byte) text.now }
    ensures within { IfSome result (λ place. place < length text.now) }
{
    text.as_bytes().iter().position(|b| *b == byte)
}

// What stands before and behind the first of a separator, which is an ASCII character.
fn split_at(separator: u8, text: &str) -> Option<(&str, &str)>
    requires { separator < 128 }
    ensures { option_map (λ parts. (parts.0.now, parts.1.now)) result ≡ split_first separator text.now }
{
    match find(separator, text) {
        None => None,
        Some(place) => Some((&text[..place], &text[place + 1..])),
    }
}

// What stands before and behind the first colon.
pub(crate) fn split_at_colon(text: &str) -> Option<(&str, &str)>
    ensures { option_map (λ parts. (parts.0.now, parts.1.now)) result ≡ split_first colon text.now }
{
    split_at(b':', text)
}

// What stands before and behind the first space.
pub(crate) fn split_at_space(text: &str) -> Option<(&str, &str)>
    ensures { option_map (λ parts. (parts.0.now, parts.1.now)) result ≡ split_first space text.now }
{
    split_at(b' ', text)
}
