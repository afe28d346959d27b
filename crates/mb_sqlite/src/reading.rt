// Reading the database. Each call reads in a transaction that is rolled back, so that it commits nothing.
ghost use Rattle.std.specs.Prelude.{◌≡◌, ◌≤◌, All, IfOk, IfSome, OnErr, length};
ghost use Rattle.mb_sqlite.specs.Common.{width};
ghost use Rattle.mb_sqlite.specs.Keeping.{OnlyReads};
ghost use Rattle.mb_sqlite.specs.Resting.{IfClean};
ghost use Rattle.mb_sqlite.specs.Sizing.{IsLiveSize};
ghost use Rattle.mb_sqlite.specs.Cursor.{MovesPast};
ghost use Rattle.mb_sqlite.specs.Reading.{ArePaged, IsCounted, IsFound, Within};

use crate::cursor::{Cursor, moved, start_of};
use crate::failure::Failure;
use crate::{paging, query, sizing};
use mb_tables::{MbtType, Row, RowKey, TableName};
use sqlite::{Alter, Connection};
use std::alloc::Global;

// The number of rows of a table.
pub(crate) fn count<S: Alter>(
    connection: &mut Connection<S>,
    table: TableName,
) -> Result<u64, Failure>
    ensures kept { OnlyReads S.Store connection.old connection.new result }
    ensures counted { IfClean S.Store connection.new (IfOk result
        (λ count. Within connection.old (λ old seen. IsCounted S.Store table old seen count))) }
{
    if !connection.is_autocommit() {
        return Err(Failure::Fault);
    }
    let mut transaction = connection.transaction();
    let count = query::count(&mut transaction, table)?;
    Ok(count)
}

// The rows of a table from a number on, at most so many. The cursor moves past them.
pub(crate) fn page<S: Alter>(
    alloc: Global,
    connection: &mut Connection<S>,
    cursor: &mut Option<Cursor>,
    table: TableName,
    from: u64,
    limit: u64,
) -> Result<Vec<Row>, Failure>
    ensures widths { IfOk result (λ rows. All (λ row. length row ≡ width table) rows.items) }
    ensures limit { IfOk result (λ rows. length rows.items ≤ limit) }
    ensures kept { OnlyReads S.Store connection.old connection.new result }
    ensures paged { IfClean S.Store connection.new (IfOk result
        (λ rows. Within connection.old
        (λ old seen. MovesPast S.Store table old seen from limit cursor.old cursor.new
        rows.items))) }
    ensures cursor { OnErr result (cursor.new ≡ cursor.old) }
{
    let start = start_of(*cursor, table, from);
    let page = page_after(alloc, connection, table, start, limit)?;
    *cursor = moved(*cursor, table, from, page.0.len() as u64, page.1);
    Ok(page.0)
}

// The rows of a table from a start on, at most so many, and the last one's `rowid`.
fn page_after<S: Alter>(
    alloc: Global,
    connection: &mut Connection<S>,
    table: TableName,
    start: (Option<i64>, u64),
    limit: u64,
) -> Result<(Vec<Row>, Option<i64>), Failure>
    ensures widths { IfOk result (λ page. All (λ row. length row ≡ width table) page.0.items) }
    ensures limit { IfOk result (λ page. length page.0.items ≤ limit) }
    ensures kept { OnlyReads S.Store connection.old connection.new result }
    ensures paged { IfClean S.Store connection.new (IfOk result
        (λ page. Within connection.old
        (λ old seen. ArePaged S.Store table old seen start limit page.0.items page.1))) }
{
    if !connection.is_autocommit() {
        return Err(Failure::Fault);
    }
    let mut transaction = connection.transaction();
    let page = paging::page(alloc, &mut transaction, table, start, limit)?;
    Ok(page)
}

// The first row of a table with a key. A key of another kind than the table's has none.
pub(crate) fn find<S: Alter>(
    alloc: Global,
    connection: &mut Connection<S>,
    table: TableName,
    key: &RowKey,
) -> Result<Option<Row>, Failure>
    ensures widths { IfOk result (λ row. IfSome row (λ row. length row ≡ width table)) }
    ensures kept { OnlyReads S.Store connection.old connection.new result }
    ensures found { IfClean S.Store connection.new (IfOk result
        (λ row. Within connection.old (λ old seen. IsFound S.Store table old seen key.now row))) }
{
    if !connection.is_autocommit() {
        return Err(Failure::Fault);
    }
    let mut transaction = connection.transaction();
    let row = query::find(alloc, &mut transaction, table, key)?;
    Ok(row)
}

// The size of all rows of a layout's tables, at most the greatest count.
pub(crate) fn size<S: Alter>(
    connection: &mut Connection<S>,
    layout: MbtType,
) -> Result<u64, Failure>
    ensures kept { OnlyReads S.Store connection.old connection.new result }
    ensures sized { IfClean S.Store connection.new (IfOk result
        (λ size. Within connection.old (λ old seen. IsLiveSize S.Store layout old seen size))) }
{
    if !connection.is_autocommit() {
        return Err(Failure::Fault);
    }
    let mut transaction = connection.transaction();
    let size = sizing::size(&mut transaction, layout)?;
    Ok(size)
}
