ghost use Rattle.std.specs.Prelude.{◌≡◌, ◌<◌};
ghost use Rattle.arrival.specs.Rounds.{is_last_look};
ghost use Rattle.sync_words.specs.Steps.{wants, looks_at};

use sync_words::{Access, Hand, Want, WordId};

// An access to a word at which nothing changes hands.
pub fn want(word: WordId, access: Access) -> Want
    ensures { result ≡ wants word access }
{
    Want::Access {
        word,
        access,
        hand: Hand::Nothing,
    }
}

// A look at a word.
pub fn look_at(word: WordId) -> Want
    ensures { result ≡ looks_at word }
{
    want(word, Access::Look)
}

// Is the next look the last of a round of `most`, where so many were made before it?
pub fn is_last_look(looks: u32, most: u32) -> bool
    requires { looks < most }
    ensures { result ≡ is_last_look looks most }
{
    looks + 1 == most
}
