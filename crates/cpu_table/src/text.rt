ghost use Rattle.std.specs.Prelude.{◌≡◌, string_bytes, IfOk};

use smm_base::NoMemory;
use std::alloc::{AllocError, Global};
use std::marker::Model;

/// A text that a contract sees as its bytes alone, so that two texts can be compared.
#[derive(Debug, Drop)]
pub struct Text {
    text: String,
}

impl Model for Text {
    ghost use Rattle.std.specs.Prelude.{List, ℕ, string_bytes};

    ghost Value = { List ℕ };

    ghost view = { λ text. string_bytes text.text };
}

impl Text {
    pub fn new(text: String) -> Self
        ensures { result ≡ string_bytes text }
    {
        Text { text }
    }

    pub fn from_str(alloc: Global, text: &str) -> Result<Self, NoMemory>
        ensures { IfOk result (λ copy. copy ≡ text.now) }
    {
        let text = String::from_str(alloc, text)?;
        Ok(Text { text })
    }

    pub fn as_str(&self) -> &str
        ensures { result.now ≡ self.now }
    {
        self.text.as_str()
    }
}

/// The copy has the same bytes.
impl Clone for Text {
    ghost is_clone = { λ text copy. copy ≡ text };

    fn clone(&self) -> Result<Self, AllocError> {
        Ok(Text {
            text: self.text.clone()?,
        })
    }
}
