// Questions to a database, whose answers come all at once, or one after another into a store.
ghost use Rattle.std.specs.Prelude.{◌≡◌, true, List, IfErr, IfOk, OnOk};
ghost use Rattle.mb_reading.specs.Common.{HasCleanDisk, is_table, IsUnchanged, Row, state, told_of};
ghost use Rattle.mb_reading.specs.Asking.{CommitsNothing, OnlyAsks, Refuses, Shows};
ghost use Rattle.mb_reading.specs.Filling.{HasTaken, NeverFails, read_of};

use crate::filling::Filling;
use crate::{ReadError, SetRead};
use mb_tables::TableName;
use sqlite::{Alter, Connection, Error, ErrorCode};
use std::alloc::Global;

// What a refusal of the database comes to.
pub(crate) fn refusal(table: TableName, cause: Error) -> ReadError {
    match cause {
        Error::SqliteFailure(ErrorCode::OutOfMemory) => ReadError::OutOfMemory,
        _ => ReadError::Fault { table, cause },
    }
}

// All rows that a text asks for.
#[tactic(auto, using(crate::proofs::AskLemmas::asked))]
pub(crate) fn ask<S: Alter>(
    connection: &mut Connection<S>,
    text: &str,
) -> Result<Vec<sqlite::Row>, Error>
    requires { OnlyAsks text.now }
    ensures survives { CommitsNothing S.Store connection.old connection.new }
    ensures same { HasCleanDisk (state S.Store connection.new) → OnOk result
        (IsUnchanged (state S.Store connection.old) (state S.Store connection.new)) }
    ensures shown { HasCleanDisk (state S.Store connection.new) → IfOk result
        (λ rows. Shows text.now (state S.Store connection.old) rows.items) }
{
    connection.query_all(text, &[])
}

// Takes the rows that a text asks for, each before the next one is read.
pub(crate) fn take_rows<S: Alter>(
    alloc: Global,
    connection: &mut Connection<S>,
    text: &str,
    table: TableName,
    so_far: SetRead,
) -> Result<Filling, Error>
    requires asks { OnlyAsks text.now }
    requires described { is_table (told_of so_far.store).descriptions table ≡ true }
    requires unfailing { NeverFails so_far.store }
    ensures survives { CommitsNothing S.Store connection.old connection.new }
    ensures same { HasCleanDisk (state S.Store connection.new) → OnOk result
        (IsUnchanged (state S.Store connection.old) (state S.Store connection.new)) }
    ensures refuses { HasCleanDisk (state S.Store connection.new) → IfErr result
        (Refuses text.now (state S.Store connection.old) (state S.Store connection.new)) }
    ensures shown { HasCleanDisk (state S.Store connection.new) → IfOk result
        (λ full. (rows : List Row) × Shows text.now (state S.Store connection.old) rows
        × HasTaken table (read_of so_far) rows full) }
    ensures taken { IfOk result
        (λ full. (rows : List Row) × HasTaken table (read_of so_far) rows full) }
    ensures described { IfOk result
        (λ full. (told_of full.so_far.store).descriptions ≡
        (told_of so_far.store).descriptions) }
    ensures unfailing { IfOk result (λ full. NeverFails full.so_far.store) }
{
    let mut filling = Filling::new(so_far);
    let mut rows = connection.query(text, &[])?;
    'rows: for _ in 0..u64::MAX {
        rows.advance()?;
        let Some(answer) = rows.get() else {
            return Ok(filling);
        };
        if filling.take(alloc, table, answer).is_err() {
            break 'rows;
        }
    }
    Err(Error::SqliteFailure(ErrorCode::OutOfMemory))
}
