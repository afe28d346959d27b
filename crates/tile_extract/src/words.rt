// What the words of an extraction ask for.
ghost use Rattle.std.specs.Prelude.{◌≡◌, None, Some, MatchOption};
ghost use Rattle.tile_extract.specs.Words.{asked, asked_by_five, asked_in, tile_at};

use base_values::TextVal;
use line_words::parse_number;
use tile_ids::TileCoord;

// The tile whose zoom, column and row words spell.
fn parse_tile(zoom: &TextVal, column: &TextVal, row: &TextVal) -> Option<TileCoord>
    ensures { result ≡ tile_at zoom.now column.now row.now }
{
    let z = parse_number(zoom.as_str().as_bytes(), 31)?;
    let last = (1u64 << z) - 1;
    let x = parse_number(column.as_str().as_bytes(), last)?;
    let y = parse_number(row.as_str().as_bytes(), last)?;
    match TileCoord::new(z as u8, x as u32, y as u32) {
        Ok(coord) => Some(coord),
        Err(_) => None,
    }
}

fn parse_five(
    zoom: &TextVal,
    column: &TextVal,
    row: &TextVal,
    max_zoom: &TextVal,
    max_tiles: &TextVal,
) -> Option<(TileCoord, u8, u64)>
    ensures { MatchOption result
        (asked_by_five zoom.now column.now row.now max_zoom.now max_tiles.now ≡ None)
        (λ r. asked_by_five zoom.now column.now row.now max_zoom.now max_tiles.now
        ≡ Some (asked r.0 r.1 r.2)) }
{
    let root = parse_tile(zoom, column, row)?;
    let greatest = parse_number(max_zoom.as_str().as_bytes(), 255)?;
    let most = parse_number(max_tiles.as_str().as_bytes(), u64::MAX)?;
    Some((root, greatest as u8, most))
}

/// The tile, the greatest zoom (0 to 255) and the limit of tiles (0 to `u64::MAX`) that words ask for, if they are five
/// numbers: the tile's zoom (0 to 31), column and row, and then these two.
pub(crate) fn parse_words(words: &[TextVal]) -> Option<(TileCoord, u8, u64)>
    ensures { MatchOption result (asked_in words.now ≡ None)
        (λ r. asked_in words.now ≡ Some (asked r.0 r.1 r.2)) }
{
    match words {
        [zoom, column, row, max_zoom, max_tiles] => {
            parse_five(zoom, column, row, max_zoom, max_tiles)
        }
        _ => None,
    }
}
