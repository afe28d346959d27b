// Keys of rows.
ghost use Rattle.std.specs.Prelude.{◌≡◌, [], ◌∷◌, IfOk};
ghost use Rattle.mb_tables.specs.Cell.{cells_cmp};
ghost use Rattle.mb_tables.specs.Table.{key_of};

use crate::{Cell, TableName};
use base_values::{OutOfMemory, TextVal};
use std::alloc::Global;
use std::cmp::Ordering;

/// The key of a row: a place, a text id or a number. It is the key of a row whose key cells are
/// these, whatever the table.
#[derive(Debug, Drop)]
pub enum RowKey {
    /// A place of a tile set, its row counted from the bottom.
    Tile {
        /// The zoom.
        zoom: u8,
        /// The column from the left.
        column: u32,
        /// The row from the bottom.
        row: u32,
    },
    /// A text, as the id of an image or the name of a metadata row.
    TextId(TextVal),
    /// A whole number, as the id of contents.
    IntId(i64),
}

impl RowKey {
    ghost use Rattle.mb_tables.specs.Key.{has_key, key_cells, key_cmp};

    /// A second key of the same cells.
    pub fn try_clone(&self, alloc: Global) -> Result<RowKey, OutOfMemory>
        ensures { IfOk result (λ copy. copy ≡ self.now) }
    {
        Ok(match self {
            RowKey::Tile { zoom, column, row } => RowKey::Tile {
                zoom: *zoom,
                column: *column,
                row: *row,
            },
            RowKey::TextId(text) => RowKey::TextId(text.try_clone(alloc)?),
            RowKey::IntId(id) => RowKey::IntId(*id),
        })
    }

    /// The order of two keys by their cells.
    pub fn compare(&self, other: &RowKey) -> Ordering
        ensures { result ≡ key_cmp self.now other.now }
    {
        match (self, other) {
            (
                RowKey::Tile { zoom, column, row },
                RowKey::Tile {
                    zoom: other_zoom,
                    column: other_column,
                    row: other_row,
                },
            ) => i64::from(*zoom)
                .cmp(&i64::from(*other_zoom))
                .then(i64::from(*column).cmp(&i64::from(*other_column)))
                .then(i64::from(*row).cmp(&i64::from(*other_row))),
            (RowKey::Tile { zoom, .. }, RowKey::IntId(id)) => {
                i64::from(*zoom).cmp(id).then(Ordering::Greater)
            }
            (RowKey::IntId(id), RowKey::Tile { zoom, .. }) => {
                id.cmp(&i64::from(*zoom)).then(Ordering::Less)
            }
            (RowKey::IntId(id), RowKey::IntId(other_id)) => id.cmp(other_id),
            (RowKey::TextId(text), RowKey::TextId(other_text)) => text.cmp(other_text),
            (RowKey::TextId(_), _) => Ordering::Greater,
            (_, RowKey::TextId(_)) => Ordering::Less,
        }
    }

    /// The order of a row's key and this one.
    pub fn compare_row(&self, table: TableName, row: &[Cell]) -> Ordering
        ensures { result ≡ cells_cmp (key_of table row.now) (key_cells self.now) }
    {
        let cells = key_of(table, row);
        match self {
            RowKey::Tile { zoom, column, row } => {
                let key = [
                    Cell::Int(i64::from(*zoom)),
                    Cell::Int(i64::from(*column)),
                    Cell::Int(i64::from(*row)),
                ];
                cells.cmp(&key.as_slice())
            }
            RowKey::TextId(text) => compare_text(cells, text),
            RowKey::IntId(id) => {
                let key = [Cell::Int(*id)];
                cells.cmp(&key.as_slice())
            }
        }
    }

    /// Whether a row of the table has this key.
    pub fn is_of(&self, table: TableName, row: &[Cell]) -> bool
        ensures { result ≡ has_key table self.now row.now }
    {
        self.compare_row(table, row).is_eq()
    }
}

/// The key of a row: its first cells, as many as the table's key has.
pub fn key_of(table: TableName, row: &[Cell]) -> &[Cell]
    ensures { result.now ≡ key_of table row.now }
{
    &row[..table.key_width().min(row.len())]
}

// The order of cells and of a text alone.
fn compare_text(cells: &[Cell], text: &TextVal) -> Ordering
    ensures { result ≡ cells_cmp cells.now (Cell.Text text.now ∷ []) }
{
    match cells {
        [] => Ordering::Less,
        [cell] => cell.compare_text(text),
        [cell, _, ..] => cell.compare_text(text).then(Ordering::Greater),
    }
}
