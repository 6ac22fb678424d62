ghost use Rattle.std.specs.Prelude.{◌≡◌, ◌<◌, ◌^◌, ℕ, List, Option, Some, IsTrue};
ghost use Rattle.std.specs.Char.{is_ascii_digit};
ghost use Rattle.std.specs.Int.{w128, from_be_bytes};
ghost use Rattle.std.specs.List.{list_all};
ghost use Rattle.std.specs.Option.{option_map};
ghost use Rattle.uuid.specs.Text.{parsed};
ghost use Rattle.smm_base.specs.Kinds.{after_named};
ghost use Rattle.smm_base.specs.Register.{register_named};
ghost use Rattle.smm_base.specs.Status.{status_named};
ghost use Rattle.sync_words.specs.Texts.{colon, cause_named};
ghost use Rattle.trace_text.specs.Readings.{has_leading_zero, is_numeral, number_of, number_below, spells_guid, guid_of, kind_of, pair_at};

use crate::split::split_at_colon;
use sync_words::{After, HandlerType, Register, StartRefusal, Status};
use uuid::Uuid;

/// What a part of a line stands for.
pub(crate) trait Field: Copy {
    /// The value that a text spells, where it spells one.
    ghost reading: { List ℕ → Option Self };

    fn read(text: &str) -> Option<Self>
        ensures { result ≡ reading text.now };
}

// Is each byte a decimal digit?
fn are_digits(text: &[u8]) -> bool
    ensures { result ≡ list_all is_ascii_digit text.now }
{
    text.iter().all(|byte| byte.is_ascii_digit())
}

// Does a digit 0 stand in front of more?
fn has_leading_zero(text: &[u8]) -> bool
    ensures { result ≡ has_leading_zero text.now }
{
    matches!(text, [b'0', _, ..])
}

// Is the text a number without a leading zero?
fn is_numeral(text: &[u8]) -> bool
    ensures { result ≡ is_numeral text.now }
{
    0 < text.len() && are_digits(text) && !has_leading_zero(text)
}

// The number of a text of digits, where it has 64 bits.
fn parse_digits(digits: &str) -> Option<u64>
    requires { IsTrue (is_numeral digits.now) }
    ensures { result ≡ number_of digits.now }
{
    digits.parse::<u64>().ok()
}

/// A decimal number without a leading zero.
impl Field for u64 {
    ghost reading = { number_of };

    fn read(text: &str) -> Option<Self> {
        if is_numeral(text.as_bytes()) {
            parse_digits(text)
        } else {
            None
        }
    }
}

impl Field for u32 {
    ghost reading = { number_below (2 ^ 32) };

    fn read(text: &str) -> Option<Self> {
        u32::try_from(u64::read(text)?).ok()
    }
}

impl Field for u16 {
    ghost reading = { number_below (2 ^ 16) };

    fn read(text: &str) -> Option<Self> {
        u16::try_from(u64::read(text)?).ok()
    }
}

impl Field for u8 {
    ghost reading = { number_below (2 ^ 8) };

    fn read(text: &str) -> Option<Self> {
        u8::try_from(u64::read(text)?).ok()
    }
}

impl Field for Status {
    ghost reading = { status_named };

    fn read(text: &str) -> Option<Self> {
        Status::named(text)
    }
}

impl Field for Register {
    ghost reading = { register_named };

    fn read(text: &str) -> Option<Self> {
        Register::named(text)
    }
}

impl Field for StartRefusal {
    ghost reading = { cause_named };

    fn read(text: &str) -> Option<Self> {
        StartRefusal::named(text)
    }
}

impl Field for After {
    ghost reading = { after_named };

    fn read(text: &str) -> Option<Self> {
        After::named(text)
    }
}

// Is the text the one that a GUID is printed as?
fn spells_guid(guid: u128, text: &str) -> bool
    ensures { result ≡ spells_guid text.now guid }
{
    let mut buffer = Uuid::encode_buffer();
    let spelled = Uuid::from_u128(guid).hyphenated().encode_lower(&mut buffer);
    spelled == text
}

// The GUID in one of the forms that `uuid` reads.
fn parse_guid(text: &str) -> Option<u128>
    ensures { result ≡ option_map (from_be_bytes w128) (parsed text.now) }
{
    match Uuid::try_parse(text) {
        Ok(guid) => Some(guid.as_u128()),
        Err(_) => None,
    }
}

// The GUID that is printed as this text.
fn read_guid(text: &str) -> Option<u128>
    ensures { result ≡ guid_of text.now }
{
    let guid = parse_guid(text)?;
    if spells_guid(guid, text) {
        Some(guid)
    } else {
        None
    }
}

/// The root list, or the list of a GUID.
impl Field for HandlerType {
    ghost reading = { kind_of };

    fn read(text: &str) -> Option<Self> {
        if text == "root" {
            return Some(HandlerType::Root);
        }
        Some(HandlerType::Typed(read_guid(text)?))
    }
}

/// Two parts with a colon between, of which the second may have colons of its own.
impl<A: Field, B: Field> Field for (A, B) {
    ghost reading = { pair_at colon A.reading B.reading };

    fn read(text: &str) -> Option<Self> {
        let (first, second) = split_at_colon(text)?;
        Some((A::read(first)?, B::read(second)?))
    }
}
