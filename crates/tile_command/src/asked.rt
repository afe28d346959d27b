// What the words behind a subcommand ask for.
ghost use Rattle.std.specs.Prelude.{◌≡◌, is_some, option_map};
ghost use Rattle.tile_command.specs.Asked.{value_in, word_at};

use base_values::TextVal;

/// The words behind a subcommand.
#[derive(Debug, Drop)]
pub struct Asked {
    /// Those beside its options, in their order.
    pub places: Vec<TextVal>,
    /// Its options with their values, each option once; one that stands alone has an empty value.
    pub options: Vec<(TextVal, TextVal)>,
}

/// The value of an option among options.
pub(crate) fn value_in<'a>(options: &'a [(TextVal, TextVal)], name: &str) -> Option<&'a str>
    ensures { option_map (λ v. v.now) result ≡ value_in options.now name.now }
{
    let [option, rest @ ..] = options else {
        return None;
    };
    if option.0.as_str() == name {
        Some(option.1.as_str())
    } else {
        value_in(rest, name)
    }
}

impl Asked {
    /// The word at a place from 0 on, and no text where there is none.
    pub fn word(&self, place: usize) -> &str
        ensures { result.now ≡ word_at place self.now.places.items }
    {
        match self.places.get(place) {
            Some(word) => word.as_str(),
            None => "",
        }
    }

    /// The value of an option, if it is there.
    pub fn value(&self, name: &str) -> Option<&str>
        ensures { option_map (λ v. v.now) result ≡ value_in self.now.options.items name.now }
    {
        value_in(self.options.as_slice(), name)
    }

    /// Whether an option is there.
    pub fn has(&self, name: &str) -> bool
        ensures { result ≡ is_some (value_in self.now.options.items name.now) }
    {
        self.value(name).is_some()
    }
}
