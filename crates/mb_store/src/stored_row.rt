// Rows as they are stored, in the order of their keys.
ghost use Rattle.std.specs.Prelude.{◌≡◌, [], ◌∷◌, ◌++◌, IfOk, IfSome, Some, refl};
ghost use Rattle.mb_store.specs.Common.{cells_cmp, eq_by_cmp, eq_by_cmp_equiv, key_cells, partial_equiv_from_equiv, partial_order_from_total};
ghost use Rattle.mb_store.specs.StoredRow.{cells_in, in_front, is_early, numbers_cells, own_key, stored_cmp, stored_total};

use crate::key_cells::{cells_of, clone_cells, own_key};
use crate::{Cell, Row, RowKey};
use base_values::OutOfMemory;
use std::alloc::Global;
use std::cmp::Ordering;
use std::marker::Model;
use std::slice;

// The cells of a stored row: the one behind its numbers, or all.
#[derive(Debug, Drop)]
pub(crate) enum StoredCells {
    Last(Cell),
    All(Row),
}

// A row and the number of its arrival. Stored rows are ordered by the cells of their keys, and those of equal keys by
// their arrival. Where the key is three small numbers, as that of a place, they lie in the stored row itself, so that
// two such rows are compared without a look at their cells. So does the only cell behind them, as that of a tile's
// contents: such a row takes no memory of its own but that of this cell.
#[derive(Debug, Drop)]
pub(crate) struct StoredRow {
    numbers: (u32, u32, u32),
    is_numbered: bool,
    arrival: u64,
    cells: StoredCells,
}

impl Model for StoredRow {
    ghost use Rattle.std.specs.Prelude.{◌≡◌, ℕ, List, true};
    ghost use Rattle.mb_store.specs.Common.{Cell};
    ghost use Rattle.mb_store.specs.StoredRow.{cells_in, numbers_cells, own_key};

    ghost Value = { List Cell × ℕ };

    ghost view = { λ s. (cells_in s.numbers s.cells, s.arrival) };

    ghost invariant = { λ s. s.is_numbered ≡ true
        → own_key (cells_in s.numbers s.cells) ≡ numbers_cells s.numbers };
}

// Three numbers in fewer bytes, where each of them fits.
fn small_numbers(first: i64, second: i64, third: i64) -> Option<(u32, u32, u32)>
    ensures { IfSome result
        (λ numbers. numbers_cells numbers ≡ Cell.Int first ∷ Cell.Int second ∷ Cell.Int third ∷
        []) }
{
    let first = u32::try_from(first).ok()?;
    let second = u32::try_from(second).ok()?;
    let third = u32::try_from(third).ok()?;
    Some((first, second, third))
}

// The three numbers of a row's key, None where it isn't three numbers from 0 to 2^32 - 1.
pub(crate) fn numbers_of(row: &[Cell]) -> Option<(u32, u32, u32)>
    ensures { IfSome result (λ numbers. own_key row.now ≡ numbers_cells numbers) }
{
    match row {
        [Cell::Int(first), Cell::Int(second), Cell::Int(third), ..] => {
            small_numbers(*first, *second, *third)
        }
        _ => None,
    }
}

// Three numbers as cells.
fn number_cells(numbers: (u32, u32, u32)) -> [Cell; 3]
    ensures { result ≡ numbers_cells numbers }
{
    [
        Cell::Int(i64::from(numbers.0)),
        Cell::Int(i64::from(numbers.1)),
        Cell::Int(i64::from(numbers.2)),
    ]
}

// What is kept of the cells of a row whose key is three numbers.
fn behind_numbers(numbers: (u32, u32, u32), row: Row) -> StoredCells
    requires { own_key row ≡ numbers_cells numbers }
    ensures { cells_in numbers result ≡ row }
{
    if row.cells().len() != 4 {
        return StoredCells::All(row);
    }
    let mut cells = row.into_cells();
    let Some(last) = cells.pop() else {
        unreachable!()
    };
    StoredCells::Last(last)
}

// The row of three numbers and a cell.
fn row_of(alloc: Global, numbers: (u32, u32, u32), last: Cell) -> Result<Row, OutOfMemory>
    ensures { IfOk result (λ row. row ≡ numbers_cells numbers ++ last ∷ []) }
{
    let mut cells = Vec::with_capacity(alloc, 4)?;
    cells.push(Cell::Int(i64::from(numbers.0)))?;
    cells.push(Cell::Int(i64::from(numbers.1)))?;
    cells.push(Cell::Int(i64::from(numbers.2)))?;
    cells.push(last)?;
    Ok(Row::new(cells))
}

// The order of three numbers and three others.
fn compare_numbers(numbers: (u32, u32, u32), others: (u32, u32, u32)) -> Ordering
    ensures { result ≡ cells_cmp (numbers_cells numbers) (numbers_cells others) }
{
    i64::from(numbers.0)
        .cmp(&i64::from(others.0))
        .then_with(|| i64::from(numbers.1).cmp(&i64::from(others.1)))
        .then_with(|| i64::from(numbers.2).cmp(&i64::from(others.2)))
}

impl StoredRow {
    // A row that came with a number.
    pub fn new(row: Row, arrival: u64) -> StoredRow
        ensures { result ≡ (row, arrival) }
    {
        match numbers_of(row.cells()) {
            Some(numbers) => StoredRow {
                numbers,
                is_numbered: true,
                arrival,
                cells: behind_numbers(numbers, row),
            },
            None => StoredRow {
                numbers: (0, 0, 0),
                is_numbered: false,
                arrival,
                cells: StoredCells::All(row),
            },
        }
    }

    // A row of a key's cells alone, to look for others.
    pub fn of_key(alloc: Global, key: &RowKey) -> Result<StoredRow, OutOfMemory>
        ensures { IfOk result (λ s. s ≡ (key_cells key.now, 0)) }
    {
        Ok(StoredRow::new(Row::new(cells_of(alloc, key)?), 0))
    }

    // A row of the same key and number, which leaves out the other cells.
    pub fn to_key(&self, alloc: Global) -> Result<StoredRow, OutOfMemory>
        ensures key { IfOk result (λ s. own_key s.0 ≡ own_key self.now.0) }
        ensures arrival { IfOk result (λ s. s.1 ≡ self.now.1) }
    {
        let cells = match &self.cells {
            StoredCells::Last(_) => StoredCells::Last(Cell::Null),
            StoredCells::All(row) => {
                StoredCells::All(Row::new(clone_cells(alloc, own_key(row.cells()))?))
            }
        };
        Ok(StoredRow {
            numbers: self.numbers,
            is_numbered: self.is_numbered,
            arrival: self.arrival,
            cells,
        })
    }

    // A copy of the row.
    pub fn to_row(&self, alloc: Global) -> Result<Row, OutOfMemory>
        ensures { IfOk result (λ row. row ≡ self.now.0) }
    {
        match &self.cells {
            StoredCells::Last(last) => row_of(alloc, self.numbers, last.try_clone(alloc)?),
            StoredCells::All(row) => row.try_clone(alloc),
        }
    }

    // The row itself, whose cells are moved.
    pub fn into_row(self, alloc: Global) -> Result<Row, OutOfMemory>
        ensures { IfOk result (λ row. row ≡ self.0) }
    {
        let StoredRow {
            numbers,
            is_numbered: _,
            arrival: _,
            cells,
        } = self;
        match cells {
            StoredCells::Last(last) => row_of(alloc, numbers, last),
            StoredCells::All(row) => Ok(row),
        }
    }

    // The numbers that lie in the stored row itself, and the other cells.
    pub fn parts(&self) -> (Option<(u32, u32, u32)>, &[Cell])
        ensures { self.now.0 ≡ in_front result.0 ++ result.1.now }
    {
        match &self.cells {
            StoredCells::Last(last) => (Some(self.numbers), slice::from_ref(last)),
            StoredCells::All(row) => (None, row.cells()),
        }
    }

    // The number of its arrival.
    pub fn arrival(&self) -> u64
        ensures { result ≡ self.now.1 }
    {
        self.arrival
    }

    // Gives the row another number.
    pub fn set_arrival(&mut self, arrival: u64)
        ensures { self.new ≡ (self.old.0, arrival) }
    {
        self.arrival = arrival;
    }

    // The order of two rows by their keys.
    pub fn compare_keys(&self, other: &StoredRow) -> Ordering
        ensures { result ≡ cells_cmp (own_key self.now.0) (own_key other.now.0) }
    {
        if self.is_numbered && other.is_numbered {
            return compare_numbers(self.numbers, other.numbers);
        }
        match (&self.cells, &other.cells) {
            (StoredCells::All(row), StoredCells::All(other)) => {
                own_key(row.cells()).cmp(&own_key(other.cells()))
            }
            (StoredCells::All(row), StoredCells::Last(_)) => {
                own_key(row.cells()).cmp(&number_cells(other.numbers).as_slice())
            }
            (StoredCells::Last(_), StoredCells::All(other)) => {
                number_cells(self.numbers)
                    .as_slice()
                    .cmp(&own_key(other.cells()))
            }
            (StoredCells::Last(_), StoredCells::Last(_)) => {
                compare_numbers(self.numbers, other.numbers)
            }
        }
    }

    // Whether the row has the key of another, and came before a number.
    pub fn is_early(&self, key: &StoredRow, limit: u64) -> bool
        ensures { result ≡ is_early key.now.0 limit self.now }
    {
        key.compare_keys(self).is_eq() && self.arrival < limit
    }
}

impl PartialEq for StoredRow {
    ghost eq = { eq_by_cmp stored_cmp };

    ghost laws = { partial_equiv_from_equiv (eq_by_cmp_equiv stored_total) };

    fn eq(&self, other: &Self) -> bool {
        self.cmp(other).is_eq()
    }
}

impl Eq for StoredRow {
    ghost laws = { eq_by_cmp_equiv stored_total };
}

impl PartialOrd for StoredRow {
    ghost partial_cmp = { λ x y. Some (stored_cmp x y) };

    ghost laws = { partial_order_from_total stored_total };

    fn partial_cmp(&self, other: &Self) -> Option<Ordering> {
        Some(self.cmp(other))
    }
}

impl Ord for StoredRow {
    ghost cmp = { stored_cmp };

    ghost total = { stored_total };

    ghost matches_partial_cmp = { λ x y. refl };

    ghost matches_eq = { λ x y. refl };

    fn cmp(&self, other: &Self) -> Ordering {
        self.compare_keys(other)
            .then_with(|| self.arrival.cmp(&other.arrival))
    }
}
