ghost use Rattle.std.specs.Prelude.{◌≡◌};
ghost use Rattle.sync_words.specs.declared.access.Access.TheVariants as access;
ghost use Rattle.sync_words.specs.declared.access.TheConstants.{LOCKED as locked};
ghost use Rattle.trace_text.specs.Readings.{bare_access, numbered_access, access_of, has_up_to};

use crate::field::Field;
use crate::split::split_at_colon;
use sync_words::{Access, LOCKED};

// An access without numbers.
fn read_bare(text: &str) -> Option<Access>
    ensures { result ≡ bare_access text.now }
{
    match text {
        "look" => Some(Access::Look),
        "up" => Some(Access::Up),
        "down" => Some(Access::Down),
        "lower" => Some(Access::Lower),
        "lock" => Some(Access::Lock),
        "signal" => Some(Access::Signal),
        "take" => Some(Access::TakeSmi),
        "clear" => Some(Access::ClearSmi),
        _ => None,
    }
}

// An access with its numbers.
fn read_numbered(word: &str, numbers: &str) -> Option<Access>
    ensures { result ≡ numbered_access word.now numbers.now }
{
    match word {
        "put" => u32::read(numbers).map(|new| Access::Put(new)),
        "claim" => <(u32, u32)>::read(numbers).map(|(from, new)| Access::Claim(from, new)),
        "await" => <(u32, u32)>::read(numbers).map(|(from, new)| Access::Await(from, new)),
        "seek" => u32::read(numbers).map(|below| Access::Seek(below)),
        "raise" => u32::read(numbers).map(|signal| Access::Raise(signal)),
        _ => None,
    }
}

/// An access, whatever its numbers are.
impl Field for Access {
    ghost reading = { access_of };

    fn read(text: &str) -> Option<Self> {
        match split_at_colon(text) {
            Some((word, numbers)) => read_numbered(word, numbers),
            None => read_bare(text),
        }
    }
}

/// Are the access's numbers ones that a word holds?
pub(crate) fn is_of_word(access: Access) -> bool
    ensures { result ≡ has_up_to locked access }
{
    match access {
        Access::Put(number) | Access::Seek(number) | Access::Raise(number) => number <= LOCKED,
        Access::Claim(from, new) | Access::Await(from, new) => from <= LOCKED && new <= LOCKED,
        Access::Look
        | Access::Up
        | Access::Down
        | Access::Lower
        | Access::Lock
        | Access::Signal
        | Access::TakeSmi
        | Access::ClearSmi => true,
    }
}
