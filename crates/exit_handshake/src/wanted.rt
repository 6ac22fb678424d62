ghost use Rattle.std.specs.Prelude.{◌≡◌};
ghost use Rattle.sync_words.specs.Steps.{wants};

use sync_words::{Access, Hand, Want, WordId};

// An access to a word at which nothing changes hands.
pub fn wants(word: WordId, access: Access) -> Want
    ensures { result ≡ wants word access }
{
    Want::Access {
        word,
        access,
        hand: Hand::Nothing,
    }
}
