// One value of a row.
ghost use Rattle.std.specs.Prelude.{◌≡◌, IfOk};
ghost use Rattle.mb_tables.specs.Cell.{is_null};

use base_values::{BlobVal, OutOfMemory, TextVal};
use std::alloc::Global;

/// One value of a row, as a database of tables holds it.
#[derive(Debug, Drop)]
pub enum Cell {
    /// No value.
    Null,
    /// A whole number.
    Int(i64),
    /// A text.
    Text(TextVal),
    /// Bytes.
    Blob(BlobVal),
    /// A value of any other kind, as a floating point number. Two of them are taken as equal.
    Other,
}

impl Cell {
    /// Whether the cell has no value.
    pub fn is_null(&self) -> bool
        ensures { result ≡ is_null self.now }
    {
        matches!(self, Cell::Null)
    }

    /// A second cell of the same value.
    pub fn try_clone(&self, alloc: Global) -> Result<Cell, OutOfMemory>
        ensures { IfOk result (λ copy. copy ≡ self.now) }
    {
        Ok(match self {
            Cell::Null => Cell::Null,
            Cell::Int(number) => Cell::Int(*number),
            Cell::Text(text) => Cell::Text(text.try_clone(alloc)?),
            Cell::Blob(blob) => Cell::Blob(blob.try_clone(alloc)?),
            Cell::Other => Cell::Other,
        })
    }
}
