// A list of texts.
ghost use Rattle.std.specs.Prelude.{◌≡◌};

use crate::TextVal;
use std::marker::Model;

/// Texts in an order, as the columns of an index or the sources of a tile set.
#[derive(Debug, Drop)]
pub struct TextList {
    texts: Vec<TextVal>,
}

impl Model for TextList {
    ghost use Rattle.std.specs.Prelude.{ℕ, List};

    ghost Value = { List (List ℕ) };

    ghost view = { λ l. l.texts.items };
}

impl TextList {
    /// The list of these texts.
    pub fn new(texts: Vec<TextVal>) -> TextList
        ensures { result ≡ texts.items }
    {
        TextList { texts }
    }

    /// The texts in order.
    pub fn as_slice(&self) -> &[TextVal]
        ensures { result.now ≡ self.now }
    {
        self.texts.as_slice()
    }
}
