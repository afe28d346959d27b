// Requests, as lines spell them.
ghost use Rattle.std.specs.Prelude.{◌≡◌, None, Some, MatchOption};
ghost use Rattle.tile_serve.specs.Common.{list_all, words_of};
ghost use Rattle.tile_serve.specs.Request.{asked, id_at, is_tag, is_tag_digit, request_by, request_of};

use line_words::{first_word, four_words, is_word, parse_number, three_words};
use tile_ids::{TileCoord, TileId};

// A digit from 0 to 9 or from A to F.
fn is_tag_digit(byte: u8) -> bool
    ensures { result ≡ is_tag_digit byte }
{
    byte.is_ascii_digit() || (b'A' <= byte && byte <= b'F')
}

// Whether a word has such digits alone.
fn has_tag_digits(word: &[u8]) -> bool
    ensures { result ≡ list_all is_tag_digit word.now }
{
    word.iter().all(|byte| is_tag_digit(*byte))
}

// Whether a word is 16 such digits.
fn is_tag(word: &[u8]) -> bool
    ensures { result ≡ is_tag word.now }
{
    if word.len() != 16 {
        return false;
    }
    has_tag_digits(word)
}

// The id of the tile whose zoom, column and row words spell.
fn parse_id(zoom: &[u8], column: &[u8], row: &[u8]) -> Option<TileId>
    ensures { result ≡ id_at zoom.now column.now row.now }
{
    let z = parse_number(zoom, 31)?;
    let last = (1u64 << z) - 1;
    let x = parse_number(column, last)?;
    let y = parse_number(row, last)?;
    match TileCoord::new(z as u8, x as u32, y as u32) {
        Ok(coord) => Some(TileId::from(coord)),
        Err(_) => None,
    }
}

// What the words behind `GET` ask for.
fn parse_words(words: &[u8]) -> Option<(TileId, &[u8])>
    ensures { MatchOption result (request_by (words_of words.now) ≡ None)
        (λ r. request_by (words_of words.now) ≡ Some (asked r.0 r.1.now)) }
{
    if let Some((zoom, column, row, tag)) = four_words(words) {
        if !is_tag(tag) {
            return None;
        }
        return Some((parse_id(zoom, column, row)?, tag));
    }
    let (zoom, column, row) = three_words(words)?;
    Some((parse_id(zoom, column, row)?, &[]))
}

/// The id that a line asks for, and the tag that it has, which is empty where it has none. None for a
/// line that is no request.
pub(crate) fn parse_request(line: &[u8]) -> Option<(TileId, &[u8])>
    ensures { MatchOption result (request_of line.now ≡ None)
        (λ r. request_of line.now ≡ Some (asked r.0 r.1.now)) }
{
    let (word, Some(words)) = first_word(line) else {
        return None;
    };
    if !is_word(word, "GET") {
        return None;
    }
    parse_words(words)
}
