// Rows of a file that go into a store, one answer after another.
ghost use Rattle.std.specs.Prelude.{◌≡◌, true, false, not, [], length, IfOk, IfSome, IfNone, OnOk, OnErr};
ghost use Rattle.mb_reading.specs.Common.{is_duplicate, is_table, TableName, told_of, width};
ghost use Rattle.mb_reading.specs.Filling.{HasTaken, IsFull, IsOdd, NeverFails, Takes, fits_one, is_fit, may_lack, misplaced, read_of, step_of, taken, with_new};
ghost use Rattle.mb_reading.specs.Rows.{row_in};

use crate::rows::{is_placed, row_of_answer};
use crate::value_kind::kind_of;
use crate::{ReadError, SetRead, ValueKind};
use base_values::OutOfMemory;
use mb_lists::coord_of;
use mb_store::{MbtError, MemStore, TileStore};
use mb_tables::{Cell, Row, RowKey, TableName};
use std::alloc::Global;
use tile_ids::invert_y_value;

/// What became of an answer.
#[derive(Clone, Copy, Debug, PartialEq, Eq)]
pub enum Step {
    /// Its row was added.
    Added,
    /// Its zoom, column or row is no whole number.
    NoNumber,
    /// Its zoom is 31 or more.
    TooDeep,
    /// It lies outside the grid of its zoom.
    Outside,
    /// The table has a row of its key.
    Repeated,
    /// It has a value that no set has there.
    Odd,
}

/// What becomes of a row without a place of zoom 0 to 30.
pub fn misplaced(row: &Row) -> Step
    ensures { result ≡ misplaced row.now }
{
    match row.cells() {
        [Cell::Int(zoom), Cell::Int(_), Cell::Int(_), ..] => {
            if *zoom < 31 {
                Step::Outside
            } else {
                Step::TooDeep
            }
        }
        _ => Step::NoNumber,
    }
}

// Adds a row, where the table has none of its key, and says whether it had none.
fn push(store: &mut MemStore, table: TableName, row: Row) -> Result<bool, OutOfMemory>
    requires described { is_table (told_of store.old).descriptions table ≡ true }
    requires wide { length row ≡ width table }
    ensures told { OnOk result (told_of store.new ≡ with_new table row (told_of store.old)) }
    ensures new { IfOk result
        (λ is_new. is_new ≡ not (is_duplicate (told_of store.old) table row)) }
    ensures described { (told_of store.new).descriptions ≡ (told_of store.old).descriptions }
    ensures unfailing { NeverFails store.old → NeverFails store.new }
{
    match store.push_row(table, row) {
        Ok(()) => Ok(true),
        Err(MbtError::DuplicateRow(_)) => Ok(false),
        Err(_) => Err(OutOfMemory),
    }
}

// Adds the row of an answer, where it is one, has a place and a new key.
fn take_answer(
    alloc: Global,
    store: &mut MemStore,
    table: TableName,
    answer: &sqlite::Row,
) -> Result<Step, OutOfMemory>
    requires { is_table (told_of store.old).descriptions table ≡ true }
    ensures told { OnOk result (told_of store.new ≡ taken table (told_of store.old) answer.now) }
    ensures fits { IfOk result
        (λ step. is_fit step ≡ fits_one table (told_of store.old) (row_in table answer.now)) }
    ensures step { IfOk result (λ step. step ≡ step_of table (told_of store.old) answer.now) }
    ensures described { (told_of store.new).descriptions ≡ (told_of store.old).descriptions }
    ensures unfailing { NeverFails store.old → NeverFails store.new }
{
    let Some(row) = row_of_answer(alloc, table, answer)? else {
        return Ok(Step::Odd);
    };
    if !is_placed(table, &row) {
        return Ok(misplaced(&row));
    }
    if push(store, table, row)? {
        Ok(Step::Added)
    } else {
        Ok(Step::Repeated)
    }
}

// The tile that a store has at the place of a row.
fn tile_at(alloc: Global, store: &mut MemStore, row: &Row) -> Result<Option<Row>, ReadError>
    ensures told { told_of store.new ≡ told_of store.old }
    ensures unfailing { NeverFails store.old → NeverFails store.new }
{
    let Some(coord) = coord_of(row) else {
        return Ok(None);
    };
    let (zoom, column) = (coord.z(), coord.x());
    let row = invert_y_value(zoom, coord.y());
    let key = RowKey::Tile { zoom, column, row };
    match store.find(alloc, TableName::Tiles, &key) {
        Ok(found) => Ok(found),
        Err(_) => Err(ReadError::OutOfMemory),
    }
}

// The test of a tile whose place has one, that it is the same.
fn test_repeated(alloc: Global, store: &mut MemStore, answer: &sqlite::Row) -> Result<(), ReadError>
    ensures told { told_of store.new ≡ told_of store.old }
    ensures unfailing { NeverFails store.old → NeverFails store.new }
{
    let table = TableName::Tiles;
    let Some(row) = row_of_answer(alloc, table, answer)? else {
        return Ok(());
    };
    let Some(there) = tile_at(alloc, store, &row)? else {
        return Ok(());
    };
    if there.cells() == row.cells() {
        return Ok(());
    }
    Err(ReadError::Twice { table })
}

// The kind of the value behind the place of an answer, null where there is none.
fn last_kind(answer: &sqlite::Row) -> ValueKind {
    match answer.get_ref(3) {
        Ok(value) => kind_of(value),
        Err(_) => ValueKind::Null,
    }
}

// The test of what became of an answer. A name of the metadata that stands again, or isn't one, is passed over, and
// so is the same tile again.
fn test_step(
    alloc: Global,
    store: &mut MemStore,
    table: TableName,
    answer: &sqlite::Row,
    step: Step,
) -> Result<(), ReadError>
    ensures fits { OnOk result (may_lack table ≡ true → is_fit step ≡ true) }
    ensures odd { OnErr result (may_lack table ≡ true → is_fit step ≡ false) }
    ensures told { told_of store.new ≡ told_of store.old }
    ensures unfailing { NeverFails store.old → NeverFails store.new }
{
    match (table, step) {
        (_, Step::Added | Step::NoNumber | Step::TooDeep | Step::Outside) => Ok(()),
        (TableName::Metadata, _) => Ok(()),
        (TableName::Tiles, Step::Repeated) => test_repeated(alloc, store, answer),
        (_, Step::Repeated) => Err(ReadError::Twice { table }),
        (_, Step::Odd) => Err(ReadError::Cell {
            table,
            kind: last_kind(answer),
        }),
    }
}

// A store whose table takes answers one after another.
#[derive(Drop)]
pub(crate) struct Filling {
    so_far: SetRead,
    // Whether there was an answer.
    any: bool,
    // The first refusal. Answers behind it are passed over.
    refused: Option<ReadError>,
}

impl Filling {
    // A store before the first answer.
    #[tactic(auto, unfolding(crate::specs::Filling::HasTaken))]
    pub(crate) fn new(so_far: SetRead) -> Filling
        ensures taken { (table : TableName) → HasTaken table (read_of so_far) [] result }
        ensures same { result.so_far ≡ so_far }
    {
        Filling {
            so_far,
            any: false,
            refused: None,
        }
    }

    // Takes an answer.
    pub(crate) fn take(
        &mut self,
        alloc: Global,
        table: TableName,
        answer: &sqlite::Row,
    ) -> Result<(), OutOfMemory>
        requires { is_table (told_of self.old.so_far.store).descriptions table ≡ true }
        ensures taken { OnOk result (Takes table answer.now self.old self.new) }
        ensures described { (told_of self.new.so_far.store).descriptions ≡
            (told_of self.old.so_far.store).descriptions }
        ensures unfailing { NeverFails self.old.so_far.store → NeverFails self.new.so_far.store }
    {
        self.any = true;
        if self.refused.is_some() {
            return Ok(());
        }
        let step = take_answer(alloc, &mut self.so_far.store, table, answer)?;
        self.so_far.left_out = self.so_far.left_out.counted_answer(table, answer, step);
        if let Err(error) = test_step(alloc, &mut self.so_far.store, table, answer, step) {
            self.refused = Some(error);
        }
        Ok(())
    }
}

// Whether a table has tiles by their places, and answers that came of it left it without rows.
fn is_outside(store: &mut MemStore, table: TableName, any: bool) -> Result<bool, ReadError>
    ensures told { told_of store.new ≡ told_of store.old }
    ensures unfailing { NeverFails store.old → NeverFails store.new }
{
    if matches!(
        table,
        TableName::Images | TableName::TilesData | TableName::Metadata
    ) {
        return Ok(false);
    }
    match store.count_rows(table) {
        Ok(kept) => Ok(kept == 0 && any),
        Err(_) => Err(ReadError::OutOfMemory),
    }
}

// The refusal of a table's answers, unless they are odd ones and the set may have another layout.
fn test_odd(table: TableName, error: ReadError) -> Result<(), ReadError>
    ensures { OnOk result (may_lack table ≡ true) }
{
    if matches!(table, TableName::Tiles | TableName::Metadata) {
        return Err(error);
    }
    match error {
        ReadError::Cell { .. } | ReadError::Twice { .. } => Ok(()),
        error => Err(error),
    }
}

// The store once all answers on a table are taken. None where they aren't rows of a table that the set may lack.
pub(crate) fn finish(filling: Filling, table: TableName) -> Result<Option<SetRead>, ReadError>
    requires { NeverFails filling.so_far.store }
    ensures full { IfOk result (λ full. IfSome full (λ full. IsFull table filling full)) }
    ensures odd { IfOk result (λ full. IfNone full (IsOdd table filling)) }
    ensures described { IfOk result (λ full. IfSome full
        (λ full. (told_of full.store).descriptions ≡
        (told_of filling.so_far.store).descriptions)) }
    ensures unfailing { IfOk result (λ full. IfSome full (λ full. NeverFails full.store)) }
{
    let Filling {
        mut so_far,
        any,
        refused,
    } = filling;
    if let Some(error) = refused {
        test_odd(table, error)?;
        return Ok(None);
    }
    if is_outside(&mut so_far.store, table, any)? {
        return Err(ReadError::OutsideGrid);
    }
    Ok(Some(so_far))
}
