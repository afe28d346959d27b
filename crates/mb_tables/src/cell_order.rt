// Cells are compared by kind and then by value.
ghost use Rattle.std.specs.Prelude.{◌≡◌, refl, Some};
ghost use Rattle.mb_tables.specs.Common.{eq_by_cmp_equiv, partial_equiv_from_equiv, partial_order_from_total};
ghost use Rattle.mb_tables.specs.Cell.{cell_cmp, cell_eq, kind_of};
ghost use Rattle.mb_tables.specs.CellOrder.{cells_total};

use crate::Cell;
use base_values::TextVal;
use std::cmp::Ordering;

impl Cell {
    // Its place among the kinds.
    fn kind(&self) -> u8
        ensures { result ≡ kind_of self.now }
    {
        match self {
            Cell::Null => 0,
            Cell::Int(_) => 1,
            Cell::Text(_) => 2,
            Cell::Blob(_) => 3,
            Cell::Other => 4,
        }
    }

    // The order of a cell and a text.
    pub(crate) fn compare_text(&self, text: &TextVal) -> Ordering
        ensures { result ≡ cell_cmp self.now (Cell.Text text.now) }
    {
        match self {
            Cell::Text(own) => own.cmp(text),
            other => other.kind().cmp(&2),
        }
    }
}

impl PartialEq for Cell {
    ghost eq = { cell_eq };

    ghost laws = { partial_equiv_from_equiv (eq_by_cmp_equiv cells_total) };

    fn eq(&self, other: &Self) -> bool {
        match (self, other) {
            (Cell::Int(a), Cell::Int(b)) => *a == *b,
            (Cell::Text(a), Cell::Text(b)) => a == b,
            (Cell::Blob(a), Cell::Blob(b)) => a == b,
            (a, b) => a.kind() == b.kind(),
        }
    }
}

impl Eq for Cell {
    ghost laws = { eq_by_cmp_equiv cells_total };
}

impl PartialOrd for Cell {
    ghost partial_cmp = { λ x y. Some (cell_cmp x y) };

    ghost laws = { partial_order_from_total cells_total };

    fn partial_cmp(&self, other: &Self) -> Option<Ordering> {
        Some(self.cmp(other))
    }
}

impl Ord for Cell {
    ghost cmp = { cell_cmp };

    ghost total = { cells_total };

    ghost matches_partial_cmp = { λ x y. refl };

    ghost matches_eq = { λ x y. refl };

    fn cmp(&self, other: &Self) -> Ordering {
        match (self, other) {
            (Cell::Int(a), Cell::Int(b)) => a.cmp(b),
            (Cell::Text(a), Cell::Text(b)) => a.cmp(b),
            (Cell::Blob(a), Cell::Blob(b)) => a.as_bytes().cmp(&b.as_bytes()),
            (a, b) => a.kind().cmp(&b.kind()),
        }
    }
}
