ghost use Rattle.std.specs.Prelude.{◌≡◌, ◌==◌, ◌<◌, ◌≤◌, IfSome, IsTrue, length, position};
ghost use Rattle.std.specs.Char.{is_ascii_digit};
ghost use Rattle.std.specs.List.{list_all};
ghost use Rattle.std.specs.Str.Parse.{digits_value};
ghost use Rattle.schedule_file.specs.Schedule.{has_leading_zero, is_numeral, numeral_of, who_of, count_of, with_count, item_of};

/// Whom an item names.
#[derive(Clone, Copy)]
pub(crate) enum Who {
    All,
    One(u32),
}

/// An item of a schedule: whom it names, and how often.
#[derive(Clone, Copy)]
pub(crate) struct Item {
    pub(crate) who: Who,
    pub(crate) count: u16,
}

// Is each byte a decimal digit?
fn are_digits(word: &[u8]) -> bool
    ensures { result ≡ list_all is_ascii_digit word.now }
{
    word.iter().all(|byte| byte.is_ascii_digit())
}

// Does a digit 0 stand in front of more?
fn has_leading_zero(word: &[u8]) -> bool
    ensures { result ≡ has_leading_zero word.now }
{
    matches!(word, [b'0', _, ..])
}

// Is the word a number of 1 to 5 digits?
fn is_numeral(word: &[u8]) -> bool
    ensures { result ≡ is_numeral word.now }
{
    let count = word.len();
    1 <= count && count <= 5 && are_digits(word) && !has_leading_zero(word)
}

// The number that at most five digits write.
fn digits_value(digits: &[u8]) -> u32
    requires few { length digits.now ≤ 5 }
    requires digits { IsTrue (list_all is_ascii_digit digits.now) }
    ensures { result ≡ digits_value 10 digits.now }
{
    let mut number = 0;
    for digit in digits {
        number = number * 10 + u32::from(*digit - b'0');
    }
    number
}

// The number that a word writes, if it is one.
#[tactic(auto, unfolding(crate::specs::Schedule::numeral_of))]
fn read_numeral(word: &[u8]) -> Option<u32>
    ensures { result ≡ numeral_of word.now }
{
    if is_numeral(word) {
        Some(digits_value(word))
    } else {
        None
    }
}

// Whom a word names, if it names any.
fn read_who(word: &[u8]) -> Option<Who>
    ensures { result ≡ who_of word.now }
{
    if word == b"all".as_slice() {
        return Some(Who::All);
    }
    Some(Who::One(read_numeral(word)?))
}

// The count that a word is, if it is one.
fn read_count(word: &[u8]) -> Option<u16>
    ensures { result ≡ count_of word.now }
{
    match read_numeral(word)? {
        0 => None,
        number => u16::try_from(number).ok(),
    }
}

// Where the first `*` of a word stands, if it has one.
fn find_star(word: &[u8]) -> Option<usize>
    ensures star { result ≡ position (λ byte. byte == 42) word.now }
    ensures within { IfSome result (λ star. star < length word.now) }
{
    word.iter().position(|byte| *byte == b'*')
}

// The item of a name and a count, where there are both.
fn with_count(who: Option<Who>, count: Option<u16>) -> Option<Item>
    ensures { result ≡ with_count who count }
{
    Some(Item {
        who: who?,
        count: count?,
    })
}

/// The item that a word is, if it is one.
pub(crate) fn read_item(word: &[u8]) -> Option<Item>
    ensures { result ≡ item_of word.now }
{
    match find_star(word) {
        None => with_count(read_who(word), Some(1)),
        Some(star) => with_count(read_who(&word[..star]), read_count(&word[star + 1..])),
    }
}
