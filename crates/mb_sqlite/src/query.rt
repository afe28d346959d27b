// Questions to the database inside a transaction.
ghost use Rattle.std.specs.Prelude.{◌≡◌, Ok, IfOk, IfSome, length};
ghost use Rattle.mb_sqlite.specs.Common.{bound, QueriesRowInside, Shown, state, width};
ghost use Rattle.mb_sqlite.specs.Keeping.{GoesOn};
ghost use Rattle.mb_sqlite.specs.Resting.{IfClean};
ghost use Rattle.mb_sqlite.specs.Reading.{IsCounted, IsFirst, IsFound};

use crate::failure::Failure;
use crate::rows::row_of;
use crate::statements;
use mb_tables::{Row, RowKey, TableName};
use sqlite::types::ValueRef;
use sqlite::{Alter, Transaction, params};
use std::alloc::Global;

// All rows that a text asks for.
pub(crate) fn ask<S: Alter>(
    transaction: &mut Transaction<'_, S>,
    text: &str,
    values: &[ValueRef<'_>],
) -> Result<Vec<sqlite::Row>, Failure>
    ensures same_reference { transaction.new.conn.ghost_name ≡ transaction.old.conn.ghost_name }
    ensures kept { GoesOn S.Store transaction.old.conn.now transaction.new.conn.now result }
    ensures shown { IfClean S.Store transaction.new.conn.now (IfOk result
        (λ rows. Shown text.now (bound values.now) (state S.Store transaction.old.conn.now)
        (state S.Store transaction.new.conn.now) rows.items)) }
{
    let rows = transaction.query_all(text, values)?;
    Ok(rows)
}

// The one row that a text asks for.
pub(crate) fn ask_row<S: Alter>(
    transaction: &mut Transaction<'_, S>,
    text: &str,
    values: &[ValueRef<'_>],
) -> Result<sqlite::Row, Failure>
    ensures same_reference { transaction.new.conn.ghost_name ≡ transaction.old.conn.ghost_name }
    ensures kept { GoesOn S.Store transaction.old.conn.now transaction.new.conn.now result }
    ensures row { IfClean S.Store transaction.new.conn.now (IfOk result
        (λ row. QueriesRowInside text.now (bound values.now)
        (state S.Store transaction.old.conn.now) (state S.Store transaction.new.conn.now)
        (Ok row))) }
{
    let row = transaction.query_row(text, values)?;
    Ok(row)
}

// The number of rows of a table.
pub(crate) fn count<S: Alter>(
    transaction: &mut Transaction<'_, S>,
    table: TableName,
) -> Result<u64, Failure>
    ensures same_reference { transaction.new.conn.ghost_name ≡ transaction.old.conn.ghost_name }
    ensures kept { GoesOn S.Store transaction.old.conn.now transaction.new.conn.now result }
    ensures counted { IfClean S.Store transaction.new.conn.now
        (IfOk result (IsCounted S.Store table transaction.old.conn.now transaction.new.conn.now)) }
{
    let row = ask_row(transaction, statements::count_of(table), &[])?;
    Ok(row.get(0)?)
}

// The first row that a text finds for a key.
fn first<S: Alter>(
    alloc: Global,
    transaction: &mut Transaction<'_, S>,
    table: TableName,
    key: &[ValueRef<'_>],
) -> Result<Option<Row>, Failure>
    ensures widths { IfOk result (λ row. IfSome row (λ row. length row ≡ width table)) }
    ensures same_reference { transaction.new.conn.ghost_name ≡ transaction.old.conn.ghost_name }
    ensures kept { GoesOn S.Store transaction.old.conn.now transaction.new.conn.now result }
    ensures first { IfClean S.Store transaction.new.conn.now
        (IfOk result (IsFirst S.Store table transaction.old.conn.now transaction.new.conn.now
        (bound key.now))) }
{
    let rows = ask(transaction, statements::found_in(table), key)?;
    match rows.first() {
        Some(row) => Ok(Some(row_of(alloc, table, row)?)),
        None => Ok(None),
    }
}

// The first row of a table with a key. A key of another kind than the table's has none.
pub(crate) fn find<S: Alter>(
    alloc: Global,
    transaction: &mut Transaction<'_, S>,
    table: TableName,
    key: &RowKey,
) -> Result<Option<Row>, Failure>
    ensures widths { IfOk result (λ row. IfSome row (λ row. length row ≡ width table)) }
    ensures same_reference { transaction.new.conn.ghost_name ≡ transaction.old.conn.ghost_name }
    ensures kept { GoesOn S.Store transaction.old.conn.now transaction.new.conn.now result }
    ensures found { IfClean S.Store transaction.new.conn.now
        (IfOk result (IsFound S.Store table transaction.old.conn.now transaction.new.conn.now
        key.now)) }
{
    match (table, key) {
        (TableName::Images | TableName::Metadata, RowKey::TextId(text)) => {
            first(alloc, transaction, table, params![text.as_str()])
        }
        (TableName::TilesData, RowKey::IntId(id)) => {
            first(alloc, transaction, table, params![*id])
        }
        (
            TableName::Tiles
            | TableName::TilesWithHash
            | TableName::Map
            | TableName::TilesShallow
            | TableName::TileCache,
            RowKey::Tile { zoom, column, row },
        ) => first(
            alloc,
            transaction,
            table,
            params![u32::from(*zoom), *column, *row],
        ),
        _ => Ok(None),
    }
}
