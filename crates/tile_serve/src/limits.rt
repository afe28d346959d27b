// How much a server holds.
ghost use Rattle.std.specs.Prelude.{◌≡◌, ◌≤◌, IfSome};
ghost use Rattle.tile_serve.specs.Limits.{IsLimits, count_from_one, limits_in, limits_of_four};

use base_values::TextVal;
use line_words::parse_number;

/// How much a server holds at most. Nothing is reserved for it.
#[derive(Clone, Copy, Debug, PartialEq, Eq)]
pub struct ServeLimits {
    /// How many directories, at least 1.
    pub directories: usize,
    /// How many entries these have together.
    pub directory_entries: usize,
    /// How many tiles, at least 1.
    pub tiles: usize,
    /// How many bytes these have together.
    pub tile_bytes: u64,
}

// The greatest number of directories, entries or tiles that words can spell.
const MAX_COUNT: u64 = 4_294_967_295;

// A number of at least 1.
fn parse_count(word: &TextVal) -> Option<usize>
    ensures value { result ≡ count_from_one word.now }
    ensures within { IfSome result (λ n. 1 ≤ n) }
{
    let number = parse_number(word.as_str().as_bytes(), MAX_COUNT)?;
    if number == 0 {
        return None;
    }
    Some(number as usize)
}

/// The limits that words spell, if they are four numbers: how many directories (1 to 4,294,967,295), entries of these
/// (0 to 4,294,967,295), tiles (1 to 4,294,967,295) and bytes of these (0 to `u64::MAX`).
pub(crate) fn limits_of(words: &[TextVal]) -> Option<ServeLimits>
    ensures value { result ≡ limits_in words.now }
    ensures within { IfSome result IsLimits }
{
    match words {
        [directories, entries, tiles, bytes] => parse_limits(directories, entries, tiles, bytes),
        _ => None,
    }
}

fn parse_limits(
    directories: &TextVal,
    entries: &TextVal,
    tiles: &TextVal,
    bytes: &TextVal,
) -> Option<ServeLimits>
    ensures value { result ≡ limits_of_four directories.now entries.now tiles.now bytes.now }
    ensures within { IfSome result IsLimits }
{
    let directories = parse_count(directories)?;
    let entries = parse_number(entries.as_str().as_bytes(), MAX_COUNT)?;
    let tiles = parse_count(tiles)?;
    let tile_bytes = parse_number(bytes.as_str().as_bytes(), u64::MAX)?;
    Some(ServeLimits {
        directories,
        directory_entries: entries as usize,
        tiles,
        tile_bytes,
    })
}
