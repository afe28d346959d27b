// How much the tables hold, inside a transaction.
ghost use Rattle.std.specs.Prelude.{◌≡◌, ◌+◌, ◌-◌, ◌^◌, ◌==◌, List, IfOk, MatchBool, drop, length, min, sum_by, take};
ghost use Rattle.sqlite_value.specs.Order as sql;
ghost use Rattle.mb_sqlite.specs.Common.{is_table, set_tables};
ghost use Rattle.mb_sqlite.specs.Keeping.{GoesOn};
ghost use Rattle.mb_sqlite.specs.Reading.{AreRead, RisesTo};
ghost use Rattle.mb_sqlite.specs.Resting.{IfClean};
ghost use Rattle.mb_sqlite.specs.Sizing.{IsLiveSize, IsTableSize, answer_size, piece, piece_size};

use crate::failure::Failure;
use crate::layout::{TABLES, has_table};
use crate::paging::{answers, rowid_after};
use crate::rows::with_row;
use mb_tables::{MbtType, TableName};
use sqlite::{Alter, Transaction};

// The rows that are read at once.
const PIECE: u64 = 1000;

// A size and that of the first rows of an answer, at most so many, and the `rowid` of the last one, that before them
// where there is none. The size is at most the greatest count.
fn with_rows(
    size: u64,
    table: TableName,
    answers: &[sqlite::Row],
    limit: u64,
    from: Option<i64>,
) -> Result<(u64, Option<i64>), Failure>
    ensures sum { IfOk result
        (λ next. next.0 ≡ min (size + sum_by (answer_size table) (take limit answers.now))
        (2 ^ 64 - 1)) }
    ensures rises { IfOk result (λ next. RisesTo table from (take limit answers.now) next.1) }
    ensures beyond { IfOk result
        (λ next. (beyond : _) × RisesTo table next.1 (take 1 (drop limit answers.now)) beyond) }
{
    let mut sum = size;
    let mut last = from;
    let mut count = 0u64;
    for answer in answers {
        let number = rowid_after(last, table, answer)?;
        if count >= limit {
            return Ok((sum, last));
        }
        sum = with_row(sum, table, answer)?;
        last = Some(number);
        count += 1;
    }
    Ok((sum, last))
}

// A size and that of the next rows of a table, behind a `rowid`, if one is given, the `rowid` of the last one,
// and whether there are none.
fn with_piece<S: Alter>(
    size: u64,
    transaction: &mut Transaction<'_, S>,
    table: TableName,
    from: Option<i64>,
) -> Result<(u64, Option<i64>, bool), Failure>
    ensures same_reference { transaction.new.conn.ghost_name ≡ transaction.old.conn.ghost_name }
    ensures kept { GoesOn S.Store transaction.old.conn.now transaction.new.conn.now result }
    ensures piece { IfClean S.Store transaction.new.conn.now (IfOk result
        (λ next. (found : List sql.Row)
        × AreRead S.Store table transaction.old.conn.now transaction.new.conn.now (from, 0) piece
        found next.1 × (next.0 ≡ min (size + piece_size table found) (2 ^ 64 - 1))
        × (next.2 ≡ (length found == 0)))) }
{
    let answers = answers(transaction, table, from, 0, PIECE)?;
    let next = with_rows(size, table, answers.as_slice(), PIECE, from)?;
    Ok((next.0, next.1, answers.is_empty()))
}

// A size and that of all rows of a table, at most the greatest count.
fn with_table<S: Alter>(
    size: u64,
    transaction: &mut Transaction<'_, S>,
    table: TableName,
) -> Result<u64, Failure>
    ensures same_reference { transaction.new.conn.ghost_name ≡ transaction.old.conn.ghost_name }
    ensures kept { GoesOn S.Store transaction.old.conn.now transaction.new.conn.now result }
    ensures table { IfClean S.Store transaction.new.conn.now (IfOk result
        (λ sum. (total : _)
        × IsTableSize S.Store table transaction.old.conn.now transaction.new.conn.now total
        × (sum ≡ min (size + total) (2 ^ 64 - 1)))) }
{
    let mut sum = size;
    let mut last = None;
    'pieces: for _ in 0..u64::MAX {
        let next = with_piece(sum, transaction, table, last)?;
        if next.2 {
            return Ok(sum);
        }
        sum = next.0;
        last = next.1;
    }
    Err(Failure::Fault)
}

// A size and that of a table, where the layout has it.
fn with_layout_table<S: Alter>(
    size: u64,
    transaction: &mut Transaction<'_, S>,
    layout: MbtType,
    table: TableName,
) -> Result<u64, Failure>
    ensures same_reference { transaction.new.conn.ghost_name ≡ transaction.old.conn.ghost_name }
    ensures kept { GoesOn S.Store transaction.old.conn.now transaction.new.conn.now result }
    ensures table { IfClean S.Store transaction.new.conn.now (IfOk result
        (λ sum. MatchBool (is_table (set_tables layout) table) ((total : _)
        × IsTableSize S.Store table transaction.old.conn.now transaction.new.conn.now total
        × (sum ≡ min (size + total) (2 ^ 64 - 1)))
        ((transaction.new.conn.now ≡ transaction.old.conn.now) × (sum ≡ size)))) }
{
    if !has_table(layout, table) {
        return Ok(size);
    }
    let sum = with_table(size, transaction, table)?;
    Ok(sum)
}

// The size of all rows of a layout's tables, at most the greatest count.
pub(crate) fn size<S: Alter>(
    transaction: &mut Transaction<'_, S>,
    layout: MbtType,
) -> Result<u64, Failure>
    ensures same_reference { transaction.new.conn.ghost_name ≡ transaction.old.conn.ghost_name }
    ensures kept { GoesOn S.Store transaction.old.conn.now transaction.new.conn.now result }
    ensures size { IfClean S.Store transaction.new.conn.now
        (IfOk result (IsLiveSize S.Store layout transaction.old.conn.now
        transaction.new.conn.now)) }
{
    let mut size = 0;
    for table in &TABLES {
        let next = with_layout_table(size, transaction, layout, *table)?;
        size = next;
    }
    Ok(size)
}
