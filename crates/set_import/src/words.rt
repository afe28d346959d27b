// How many tiles the words of a command line allow.
ghost use Rattle.std.specs.Prelude.{◌≡◌};
ghost use Rattle.set_import.specs.Words.{limit_in};

use base_values::TextVal;
use line_words::parse_number;

/// How many tiles an archive may have where no word says it: a set is in memory while it is made.
pub const MAX_TILES: u64 = 10_000_000;

/// How many tiles an archive may have, by the words behind the names of the files: the number of 64 bits that the one
/// word spells, and `MAX_TILES` without a word. None for any other words.
pub fn limit_of(words: &[TextVal]) -> Option<u64>
    ensures { result ≡ limit_in words.now }
{
    match words {
        [] => Some(MAX_TILES),
        [word] => parse_number(word.as_str().as_bytes(), u64::MAX),
        _ => None,
    }
}
