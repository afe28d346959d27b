// Writing the database. What a call changes is committed at once, or not at all.
ghost use Rattle.std.specs.Prelude.{◌≡◌, false, true, IfOk, IsErrOf, OnErr, OnOk, option_copied};
ghost use Rattle.mb_sqlite.specs.Common.{AllZip, bound};
ghost use Rattle.mb_sqlite.specs.Committing.{CommitsOnce, KeepsCommitted};
ghost use Rattle.mb_sqlite.specs.Keeping.{GoesOn};
ghost use Rattle.mb_sqlite.specs.Making.{Adds, AreChanged, Changed, Commits, IsRun, Removes, begun};
ghost use Rattle.mb_sqlite.specs.Resting.{IfClean, Rests};
ghost use Rattle.mb_sqlite.specs.Statements.{removal_text};
ghost use Rattle.mb_sqlite.specs.Stored.{IsWrittenAs};

use crate::failure::Failure;
use crate::layout::has_table;
use crate::rows::value_of;
use crate::statements;
use mb_store::Changes;
use mb_tables::{Cell, MbtType, Row, RowKey, TableName};
use sqlite::types::ValueRef;
use sqlite::{Alter, Connection, Transaction, params};
use std::alloc::Global;

// Runs a text in a transaction.
pub(crate) fn run<S: Alter>(
    transaction: &mut Transaction<'_, S>,
    text: &str,
    values: &[ValueRef<'_>],
) -> Result<(), Failure>
    ensures same_reference { transaction.new.conn.ghost_name ≡ transaction.old.conn.ghost_name }
    ensures kept { GoesOn S.Store transaction.old.conn.now transaction.new.conn.now result }
    ensures runs { IfClean S.Store transaction.new.conn.now
        (OnOk result (IsRun S.Store text.now (bound values.now) transaction.old.conn.now
        transaction.new.conn.now)) }
{
    transaction.execute(text, values)?;
    Ok(())
}

// Removes the rows with these values as their key.
fn remove_rows<S: Alter>(
    transaction: &mut Transaction<'_, S>,
    table: TableName,
    key: &[ValueRef<'_>],
) -> Result<(), Failure>
    ensures same_reference { transaction.new.conn.ghost_name ≡ transaction.old.conn.ghost_name }
    ensures kept { GoesOn S.Store transaction.old.conn.now transaction.new.conn.now result }
    ensures removes { IfClean S.Store transaction.new.conn.now
        (OnOk result (IsRun S.Store (removal_text table) (bound key.now) transaction.old.conn.now
        transaction.new.conn.now)) }
{
    run(transaction, statements::removal_from(table), key)
}

// Removes the rows of a key. A key of another kind than the table's has none.
#[tactic(auto, unfolding(crate::specs::Making::Removes))]
fn remove<S: Alter>(
    transaction: &mut Transaction<'_, S>,
    table: TableName,
    key: &RowKey,
) -> Result<(), Failure>
    ensures same_reference { transaction.new.conn.ghost_name ≡ transaction.old.conn.ghost_name }
    ensures kept { GoesOn S.Store transaction.old.conn.now transaction.new.conn.now result }
    ensures removes { IfClean S.Store transaction.new.conn.now
        (OnOk result (Removes S.Store table key.now transaction.old.conn.now
        transaction.new.conn.now)) }
{
    match (table, key) {
        (TableName::Images | TableName::Metadata, RowKey::TextId(id)) => {
            remove_rows(transaction, table, params![id.as_str()])
        }
        (TableName::TilesData, RowKey::IntId(id)) => remove_rows(transaction, table, params![*id]),
        (
            TableName::Tiles
            | TableName::TilesWithHash
            | TableName::Map
            | TableName::TilesShallow
            | TableName::TileCache,
            RowKey::Tile { zoom, column, row },
        ) => remove_rows(transaction, table, params![u32::from(*zoom), *column, *row]),
        _ => Ok(()),
    }
}

// Cells as values of the database. A cell of another kind can't be written.
fn values_of<'a>(alloc: Global, cells: &'a [Cell]) -> Result<Vec<ValueRef<'a>>, Failure>
    ensures { IfOk result (λ values. AllZip IsWrittenAs cells.now (bound values.items)) }
{
    let mut values = Vec::new(alloc);
    for cell in cells {
        let Some(value) = value_of(cell) else {
            return Err(Failure::Fault);
        };
        values.push(value)?;
    }
    Ok(values)
}

// Adds a row. One with a cell of another kind can't be written.
fn add<S: Alter>(
    alloc: Global,
    transaction: &mut Transaction<'_, S>,
    table: TableName,
    cells: &[Cell],
) -> Result<(), Failure>
    ensures same_reference { transaction.new.conn.ghost_name ≡ transaction.old.conn.ghost_name }
    ensures kept { GoesOn S.Store transaction.old.conn.now transaction.new.conn.now result }
    ensures adds { IfClean S.Store transaction.new.conn.now
        (OnOk result (Adds S.Store table cells.now transaction.old.conn.now
        transaction.new.conn.now)) }
{
    let values = values_of(alloc, cells)?;
    run(
        transaction,
        statements::addition_to(table),
        values.as_slice(),
    )?;
    Ok(())
}

// Makes one change: the rows of a key are removed, and the row that is put is added.
fn change_one<S: Alter>(
    alloc: Global,
    transaction: &mut Transaction<'_, S>,
    layout: MbtType,
    table: TableName,
    key: &RowKey,
    row: Option<&Row>,
) -> Result<(), Failure>
    ensures same_reference { transaction.new.conn.ghost_name ≡ transaction.old.conn.ghost_name }
    ensures kept { GoesOn S.Store transaction.old.conn.now transaction.new.conn.now result }
    ensures changed { IfClean S.Store transaction.new.conn.now
        (OnOk result (Changed S.Store layout
        (record { table = table; key = key.now; row = option_copied row.entry })
        transaction.old.conn.now transaction.new.conn.now)) }
{
    if !has_table(layout, table) {
        return Err(Failure::Fault);
    }
    remove(transaction, table, key)?;
    match row {
        Some(row) => {
            add(alloc, transaction, table, row.cells())?;
            Ok(())
        }
        None => Ok(()),
    }
}

// Makes changes in a transaction.
fn change<S: Alter>(
    alloc: Global,
    transaction: &mut Transaction<'_, S>,
    layout: MbtType,
    changes: &Changes,
) -> Result<(), Failure>
    ensures same_reference { transaction.new.conn.ghost_name ≡ transaction.old.conn.ghost_name }
    ensures kept { GoesOn S.Store transaction.old.conn.now transaction.new.conn.now result }
    ensures changed { IfClean S.Store transaction.new.conn.now
        (OnOk result (AreChanged S.Store layout changes.now transaction.old.conn.now
        transaction.new.conn.now)) }
{
    for at in 0..changes.len() {
        let (table, key, row) = changes.change_at(at);
        change_one(alloc, transaction, layout, table, key, row)?;
    }
    Ok(())
}

// Makes changes as one transaction.
#[tactic(auto, using(crate::proofs::CommitLemmas::nothing_yet, crate::proofs::CommitLemmas::nothing_once))]
pub(crate) fn commit<S: Alter>(
    alloc: Global,
    connection: &mut Connection<S>,
    layout: MbtType,
    changes: &Changes,
) -> Result<(), Failure>
    ensures once { CommitsOnce S.Store
        (AreChanged S.Store layout changes.now (begun connection.old)) connection.old
        connection.new }
    ensures changed { IfClean S.Store connection.new
        (OnOk result (Commits S.Store (AreChanged S.Store layout changes.now (begun connection.old))
        connection.new)) }
    ensures refused { OnErr result (KeepsCommitted S.Store connection.old connection.new) }
    ensures inside { connection.old.in_transaction ≡ true → IsErrOf result Failure.Fault
        × (connection.new ≡ connection.old) }
    ensures ended { connection.old.in_transaction ≡ false → connection.new.in_transaction ≡ false }
    ensures rests { connection.old.in_transaction ≡ false
        → OnErr result (Rests S.Store connection.old connection.new) }
{
    if !connection.is_autocommit() {
        return Err(Failure::Fault);
    }
    let mut transaction = connection.transaction();
    change(alloc, &mut transaction, layout, changes)?;
    transaction.commit()?;
    Ok(())
}
