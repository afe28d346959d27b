// Reading a table page by page inside a transaction.
ghost use Rattle.std.specs.Prelude.{◌≡◌, ◌≤◌, ◌+◌, true, All, IfOk, drop, length, take};
ghost use Rattle.mb_sqlite.specs.Common.{AllZip, column, width};
ghost use Rattle.sqlite_value.specs.declared.value.Value.TheVariants as sql;
ghost use Rattle.mb_sqlite.specs.Keeping.{GoesOn};
ghost use Rattle.mb_sqlite.specs.Resting.{IfClean};
ghost use Rattle.mb_sqlite.specs.Reading.{ArePaged, AreShown, IsRowOf, RisesTo, is_above, sql_number};

use crate::failure::Failure;
use crate::query::ask;
use crate::rows::row_of;
use crate::statements;
use mb_tables::{Row, TableName};
use sqlite::{Alter, Transaction, params};
use std::alloc::Global;

// A number that SQL takes, the greatest one for those above it.
fn sql_number(number: u64) -> i64
    ensures { result ≡ sql_number number }
{
    i64::try_from(number).unwrap_or(i64::MAX)
}

// A number and one more, as SQL takes it.
fn one_more(number: u64) -> i64
    ensures { result ≡ sql_number (number + 1) }
{
    match number.checked_add(1) {
        Some(more) => sql_number(more),
        None => i64::MAX,
    }
}

// A page of a table: behind a `rowid`, if one is given, after so many rows, at most so many and one more.
pub(crate) fn answers<S: Alter>(
    transaction: &mut Transaction<'_, S>,
    table: TableName,
    from: Option<i64>,
    passed: u64,
    limit: u64,
) -> Result<Vec<sqlite::Row>, Failure>
    ensures same_reference { transaction.new.conn.ghost_name ≡ transaction.old.conn.ghost_name }
    ensures kept { GoesOn S.Store transaction.old.conn.now transaction.new.conn.now result }
    ensures shown { IfClean S.Store transaction.new.conn.now (IfOk result
        (λ rows. AreShown S.Store table transaction.old.conn.now transaction.new.conn.now from
        passed (limit + 1) rows.items)) }
{
    let most = one_more(limit);
    let passed = sql_number(passed);
    match from {
        None => {
            let text = statements::first_page_of(table);
            ask(transaction, text, params![most, passed])
        }
        Some(last) => {
            let text = statements::page_of(table);
            ask(transaction, text, params![most, passed, last])
        }
    }
}

// Whether a number is above one, if one is given.
fn is_above(from: Option<i64>, number: i64) -> bool
    ensures { result ≡ is_above from number }
{
    match from {
        Some(from) => from < number,
        None => true,
    }
}

// The `rowid` of an answer on a table. One that isn't above the row's before it is a fault: a column of
// that name hides the number.
pub(crate) fn rowid_after(
    from: Option<i64>,
    table: TableName,
    answer: &sqlite::Row,
) -> Result<i64, Failure>
    ensures is { IfOk result (λ n. column answer.now (width table) ≡ sql.Int n) }
    ensures above { IfOk result (λ n. is_above from n ≡ true) }
{
    let number = answer.get(table.width())?;
    if !is_above(from, number) {
        return Err(Failure::Fault);
    }
    Ok(number)
}

// The first rows of an answer, at most so many, and the `rowid` of the last one, that before them where there is none.
// Each is above the one before it, and so is the one after them.
fn rows_of(
    alloc: Global,
    table: TableName,
    answers: &[sqlite::Row],
    limit: u64,
    from: Option<i64>,
) -> Result<(Vec<Row>, Option<i64>), Failure>
    ensures widths { IfOk result (λ page. All (λ row. length row ≡ width table) page.0.items) }
    ensures limit { IfOk result (λ page. length page.0.items ≤ limit) }
    ensures rows { IfOk result
        (λ page. AllZip (IsRowOf table) (take limit answers.now) page.0.items) }
    ensures rises { IfOk result (λ page. RisesTo table from (take limit answers.now) page.1) }
    ensures beyond { IfOk result
        (λ page. (beyond : _) × RisesTo table page.1 (take 1 (drop limit answers.now)) beyond) }
{
    let mut rows = Vec::new(alloc);
    let mut last = from;
    for answer in answers {
        let number = rowid_after(last, table, answer)?;
        if rows.len() as u64 >= limit {
            return Ok((rows, last));
        }
        rows.push(row_of(alloc, table, answer)?)?;
        last = Some(number);
    }
    Ok((rows, last))
}

// The rows of a table behind a `rowid`, if one is given, but for the first ones, at most so many;
// and the last one's `rowid`.
pub(crate) fn page<S: Alter>(
    alloc: Global,
    transaction: &mut Transaction<'_, S>,
    table: TableName,
    start: (Option<i64>, u64),
    limit: u64,
) -> Result<(Vec<Row>, Option<i64>), Failure>
    ensures widths { IfOk result (λ page. All (λ row. length row ≡ width table) page.0.items) }
    ensures limit { IfOk result (λ page. length page.0.items ≤ limit) }
    ensures same_reference { transaction.new.conn.ghost_name ≡ transaction.old.conn.ghost_name }
    ensures kept { GoesOn S.Store transaction.old.conn.now transaction.new.conn.now result }
    ensures paged { IfClean S.Store transaction.new.conn.now (IfOk result
        (λ page. ArePaged S.Store table transaction.old.conn.now transaction.new.conn.now start
        limit page.0.items page.1)) }
{
    let answers = answers(transaction, table, start.0, start.1, limit)?;
    let page = rows_of(alloc, table, answers.as_slice(), limit, start.0)?;
    Ok(page)
}
