// The coordinate of a row of a tile.
ghost use Rattle.std.specs.Prelude.{◌≡◌};
ghost use Rattle.mb_lists.specs.FromRows.{coord_in, number_in};

use mb_tables::{Cell, Row, cell_at};
use tile_ids::{TileCoord, parse_tile_index};

// The whole number in a cell.
fn number_in(cell: &Cell) -> Option<i64>
    ensures { result ≡ number_in cell.now }
{
    match cell {
        Cell::Int(number) => Some(*number),
        _ => None,
    }
}

/// The coordinate of a row of zoom 0 to 30, its column and row below two to the zoom.
pub fn coord_of(row: &Row) -> Option<TileCoord>
    ensures { result ≡ coord_in row.now }
{
    let null = Cell::Null;
    let zoom = number_in(cell_at(row, 0, &null));
    let column = number_in(cell_at(row, 1, &null));
    let line = number_in(cell_at(row, 2, &null));
    parse_tile_index(zoom, column, line)
}
