// The numbers that name a part of a set, word by word.
ghost use Rattle.std.specs.Prelude.{◌≡◌};
ghost use Rattle.set_conversion.specs.PartWords.{after_number, is_number, with_ids, with_tile};

use crate::part::{SetPart, coord_at};
use line_words::parse_number;
use tile_ids::MAX_TILE_ID;

/// What the next word is read as.
#[derive(Clone, Copy, Debug)]
pub(crate) enum Awaited {
    /// A flag or a file.
    Any,
    /// The zoom of a tile.
    Zoom,
    /// The column of a tile of this zoom.
    Column(u8),
    /// The row of a tile of this zoom and column.
    Row(u8, u32),
    /// The first id.
    First,
    /// The last id behind this first one.
    Last(u64),
}

/// Whether the next word is a number.
pub(crate) fn is_number(awaited: Awaited) -> bool
    ensures { result ≡ is_number awaited }
{
    !matches!(awaited, Awaited::Any)
}

// The part of a tile and all tiles below it, if there is such a tile.
fn with_tile(zoom: u8, column: u32, row: u32) -> Option<(Awaited, SetPart)>
    ensures { result ≡ with_tile zoom column row }
{
    coord_at(zoom, column, row)?;
    Some((Awaited::Any, SetPart::Below { zoom, column, row }))
}

// The part of the ids from one to another, if there are some.
fn with_ids(first: u64, last: u64) -> Option<(Awaited, SetPart)>
    ensures { result ≡ with_ids first last }
{
    if first > last {
        return None;
    }
    Some((Awaited::Any, SetPart::Ids { first, last }))
}

/// What is read behind a word that is to be a number, and the part that is named so far; None for another word.
pub(crate) fn after_number(
    awaited: Awaited,
    part: SetPart,
    word: &str,
) -> Option<(Awaited, SetPart)>
    ensures { result ≡ after_number awaited part word.now }
{
    let word = word.as_bytes();
    match awaited {
        Awaited::Any => None,
        Awaited::Zoom => {
            let z = parse_number(word, u64::from(u8::MAX))?;
            Some((Awaited::Column(z as u8), part))
        }
        Awaited::Column(z) => {
            let x = parse_number(word, u64::from(u32::MAX))?;
            Some((Awaited::Row(z, x as u32), part))
        }
        Awaited::Row(z, x) => {
            let y = parse_number(word, u64::from(u32::MAX))?;
            with_tile(z, x, y as u32)
        }
        Awaited::First => {
            let first = parse_number(word, MAX_TILE_ID)?;
            Some((Awaited::Last(first), part))
        }
        Awaited::Last(first) => {
            let last = parse_number(word, MAX_TILE_ID)?;
            with_ids(first, last)
        }
    }
}
