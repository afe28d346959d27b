// A row of a table.
ghost use Rattle.std.specs.Prelude.{◌≡◌, IfOk};

use crate::Cell;
use base_values::OutOfMemory;
use std::alloc::Global;
use std::marker::Model;

/// A row: its cells in the order of its table's columns.
#[derive(Debug, Drop)]
pub struct Row {
    cells: Vec<Cell>,
}

impl Model for Row {
    ghost use Rattle.std.specs.Prelude.{List};
    ghost use Rattle.mb_tables.specs.declared.cell.Cell.{Cell};

    ghost Value = { List Cell };

    ghost view = { λ r. r.cells.items };
}

impl Row {
    /// The row of these cells.
    pub fn new(cells: Vec<Cell>) -> Row
        ensures { result ≡ cells.items }
    {
        Row { cells }
    }

    /// The cells in order.
    pub fn cells(&self) -> &[Cell]
        ensures { result.now ≡ self.now }
    {
        self.cells.as_slice()
    }

    /// The cells themselves, in order.
    pub fn into_cells(self) -> Vec<Cell>
        ensures { result.items ≡ self }
    {
        let Row { cells } = self;
        cells
    }

    /// A second row of the same cells.
    pub fn try_clone(&self, alloc: Global) -> Result<Row, OutOfMemory>
        ensures { IfOk result (λ copy. copy ≡ self.now) }
    {
        let mut cells = Vec::with_capacity(alloc, self.cells.len())?;
        for cell in &self.cells {
            cells.push(cell.try_clone(alloc)?)?;
        }
        Ok(Row { cells })
    }
}
