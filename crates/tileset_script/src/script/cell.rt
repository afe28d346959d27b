// Cells as words of a script.
ghost use Rattle.std.specs.Prelude.{◌≡◌, IfOk};
ghost use Rattle.tileset_script.specs.Cell.{cell_of};

use super::text::parse_text;
use base_values::{BlobVal, OutOfMemory};
use line_words::parse_integer;
use mb_store::Cell;
use std::alloc::Global;

/// The cell that a word spells, or None: `n` is Null, `o` a value of any other kind, `i` and a whole number of 64
/// bits an Int, `x` and an even number of hexadecimal digits a Blob, `t` and a text with `%` and two hexadecimal
/// digits for other bytes a Text.
pub(crate) fn parse_cell(alloc: Global, word: &[u8]) -> Result<Option<Cell>, OutOfMemory>
    ensures { IfOk result (λ cell. cell ≡ cell_of word.now) }
{
    match word {
        [b'n'] => Ok(Some(Cell::Null)),
        [b'o'] => Ok(Some(Cell::Other)),
        [b'i', number @ ..] => Ok(parse_integer(number, 1 << 63).map(Cell::Int)),
        [b'x', digits @ ..] => match hex_pairs::decode(alloc, digits)? {
            Some(bytes) => Ok(Some(Cell::Blob(BlobVal::new(bytes)))),
            None => Ok(None),
        },
        [b't', ..] => Ok(parse_text(alloc, word)?.map(Cell::Text)),
        _ => Ok(None),
    }
}
