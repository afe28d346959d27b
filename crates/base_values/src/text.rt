// An owned text, which contracts see as its bytes.
ghost use Rattle.std.specs.Prelude.{◌≡◌, IfOk, string_bytes};

use crate::OutOfMemory;
use std::alloc::Global;
use std::fmt;
use std::marker::Model;

/// A text. Two texts are compared by their bytes.
#[derive(Debug, Drop)]
pub struct TextVal {
    text: String,
}

impl Model for TextVal {
    ghost use Rattle.std.specs.Prelude.{ℕ, List, string_bytes};

    ghost Value = { List ℕ };

    ghost view = { λ t. string_bytes t.text };
}

impl TextVal {
    /// The text that holds this string.
    pub fn new(text: String) -> TextVal
        ensures { result ≡ string_bytes text }
    {
        TextVal { text }
    }

    /// The text itself.
    pub fn as_str(&self) -> &str
        ensures { result.now ≡ self.now }
    {
        self.text.as_str()
    }

    /// A second text with the same bytes.
    pub fn try_clone(&self, alloc: Global) -> Result<TextVal, OutOfMemory>
        ensures { IfOk result (λ copy. copy ≡ self.now) }
    {
        Ok(TextVal {
            text: String::from_str(alloc, self.text.as_str())?,
        })
    }
}

impl fmt::Display for TextVal {
    ghost use Rattle.std.specs.Prelude.{Some};

    ghost output = { λ t. Some t };

    fn fmt<W: fmt::Write>(&self, f: &mut fmt::Formatter<W>) -> fmt::Result {
        let text = self.as_str();
        write!(f, "{text}")
    }
}
