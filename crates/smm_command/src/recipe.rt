ghost use Rattle.std.specs.Prelude.{◌≡◌, ◌≤◌, IfSome, IsTrue};
ghost use Rattle.std.specs.Char.{is_ascii_digit};
ghost use Rattle.std.specs.List.{list_all};
ghost use Rattle.smm_command.specs.Numbers.{has_leading_zero, is_numeral, number_of, processors_of};
ghost use Rattle.smm_command.specs.Recipes.{recipe_of, IsRecipe};

/// What a generated platform is made from.
#[derive(Clone, Copy)]
pub struct Recipe {
    /// The number that its draws begin with.
    pub seed: u32,
    /// How many processors it has, 1 to 64.
    pub processors: u16,
}

// Is each byte a decimal digit?
fn are_digits(word: &[u8]) -> bool
    ensures { result ≡ list_all is_ascii_digit word.now }
{
    word.iter().all(|byte| byte.is_ascii_digit())
}

// Does a digit 0 stand in front of more?
fn has_leading_zero(word: &[u8]) -> bool
    ensures { result ≡ has_leading_zero word.now }
{
    matches!(word, [b'0', _, ..])
}

// Is the word a decimal number without a sign and without a leading zero?
fn is_numeral(word: &[u8]) -> bool
    ensures { result ≡ is_numeral word.now }
{
    0 < word.len() && are_digits(word) && !has_leading_zero(word)
}

// The number of a word of digits, where it has 32 bits.
fn parse_digits(digits: &str) -> Option<u32>
    requires { IsTrue (is_numeral digits.now) }
    ensures { result ≡ number_of digits.now }
{
    digits.parse::<u32>().ok()
}

// The number of 32 bits that a word is, if it is one.
fn read_number(word: &str) -> Option<u32>
    ensures { result ≡ number_of word.now }
{
    if is_numeral(word.as_bytes()) {
        parse_digits(word)
    } else {
        None
    }
}

// The number of processors that a word is, if a platform can have so many.
fn read_processors(word: &str) -> Option<u16>
    ensures processors { result ≡ processors_of word.now }
    ensures in_range { IfSome result (λ processors. (1 ≤ processors) × (processors ≤ 64)) }
{
    let number = read_number(word)?;
    if 1 <= number && number <= 64 {
        Some(number as u16)
    } else {
        None
    }
}

// The recipe of two words, if they are one.
pub(crate) fn read_recipe(seed: &str, processors: &str) -> Option<Recipe>
    ensures recipe { result ≡ recipe_of seed.now processors.now }
    ensures in_range { IfSome result IsRecipe }
{
    let seed = read_number(seed)?;
    let processors = read_processors(processors)?;
    Some(Recipe { seed, processors })
}
