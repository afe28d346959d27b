// Reading a set of a database, one statement a table.
ghost use Rattle.std.specs.Prelude.{◌≡◌, true, IfNone, IfOk, IfSome, OnOk};
ghost use Rattle.mb_reading.specs.Common.{HasCleanDisk, is_table, state, told_of};
ghost use Rattle.mb_reading.specs.Asking.{CommitsNothing, IsUnfit, LacksLayout, ReadsBy, ReadsEither, ReadsLayout, ReadsSet, ReadsTable, Stays, is_input};
ghost use Rattle.mb_reading.specs.Filling.{IsFilled, IsRead, IsSet, NeverFails, content_table, has_contents, may_lack, read_of};

use crate::asking::{ask, refusal, take_rows};
use crate::filling::finish;
use crate::master::{first_layout, is_there};
use crate::texts::{of_master, rows_of};
use crate::{LeftOut, ReadError, SetRead};
use mb_store::MemStore;
use mb_tables::{MbtType, TableName};
use sqlite::{Alter, Connection, Error, ErrorCode};
use std::alloc::Global;

// Whether a layout has a table of contents.
fn has_contents(layout: MbtType) -> bool
    ensures { result ≡ has_contents layout }
{
    matches!(layout, MbtType::Normalized { .. })
}

// The table that has the contents of a normalised layout.
fn content_table(layout: MbtType) -> TableName
    ensures { result ≡ content_table layout }
{
    match layout {
        MbtType::Normalized { schema, .. } => schema.contents(),
        _ => TableName::Images,
    }
}

// The refusal of a statement on a table, unless it lacks a column and is another one than `tiles`,
// behind which a view may stand.
fn test_lacking(table: TableName, cause: Error) -> Result<(), ReadError>
    ensures named { OnOk result (may_lack table ≡ true) }
    ensures input { OnOk result (is_input cause ≡ true) }
{
    if matches!(table, TableName::Tiles | TableName::Metadata) {
        return Err(refusal(table, cause));
    }
    match cause {
        Error::SqlInputError(_) => Ok(()),
        cause => Err(refusal(table, cause)),
    }
}

// Reads a table, where it is to be read. None where it lacks a column, or its rows aren't those of such a table.
#[tactic(auto, using(crate::proofs::FillLemmas::filled_by, crate::proofs::FillLemmas::filled_not, crate::proofs::AskLemmas::nothing_yet, crate::proofs::AskLemmas::stays_here, crate::proofs::AskLemmas::stays_by))]
fn read_table<S: Alter>(
    alloc: Global,
    connection: &mut Connection<S>,
    so_far: SetRead,
    has: bool,
    table: TableName,
) -> Result<Option<SetRead>, ReadError>
    requires described { has ≡ true → is_table (told_of so_far.store).descriptions table ≡ true }
    requires unfailing { NeverFails so_far.store }
    ensures survives { CommitsNothing S.Store connection.old connection.new }
    ensures same { HasCleanDisk (state S.Store connection.new) → OnOk result
        (Stays (state S.Store connection.old) (state S.Store connection.new)) }
    ensures read { HasCleanDisk (state S.Store connection.new) → IfOk result
        (λ full. IfSome full (λ full. ReadsTable has table (state S.Store connection.old)
        (read_of so_far) (read_of full))) }
    ensures unfit { HasCleanDisk (state S.Store connection.new) → IfOk result
        (λ full. IfNone full (IsUnfit has table (state S.Store connection.old)
        (read_of so_far))) }
    ensures told { IfOk result (λ full. IfSome full
        (λ full. IsFilled has table (read_of so_far) (read_of full))) }
    ensures described { IfOk result (λ full. IfSome full
        (λ full. (told_of full.store).descriptions ≡ (told_of so_far.store).descriptions)) }
    ensures unfailing { IfOk result (λ full. IfSome full (λ full. NeverFails full.store)) }
{
    if !has {
        return Ok(Some(so_far));
    }
    match take_rows(alloc, connection, rows_of(table), table, so_far) {
        Ok(filling) => finish(filling, table),
        Err(cause) => {
            test_lacking(table, cause)?;
            Ok(None)
        }
    }
}

// Reads all tables of a layout. None where one of them can't be read so.
#[tactic(auto, using(crate::proofs::AskLemmas::nothing_yet, crate::proofs::FillLemmas::has_names_table, crate::proofs::FillLemmas::has_content_table, crate::proofs::FillLemmas::has_tile_table))]
fn read_layout<S: Alter>(
    alloc: Global,
    connection: &mut Connection<S>,
    layout: MbtType,
    has_names: bool,
) -> Result<Option<SetRead>, ReadError>
    ensures survives { CommitsNothing S.Store connection.old connection.new }
    ensures same { HasCleanDisk (state S.Store connection.new) → OnOk result
        (Stays (state S.Store connection.old) (state S.Store connection.new)) }
    ensures read { HasCleanDisk (state S.Store connection.new) → IfOk result
        (λ full. IfSome full (λ full. ReadsLayout layout has_names (state S.Store connection.old)
        (read_of full))) }
    ensures lacks { HasCleanDisk (state S.Store connection.new) → IfOk result
        (λ full. IfNone full (LacksLayout layout has_names (state S.Store connection.old))) }
    ensures told { IfOk result (λ full. IfSome full (λ full. IsRead layout (read_of full))) }
    ensures unfailing { IfOk result (λ full. IfSome full (λ full. NeverFails full.store)) }
{
    let Ok(store) = MemStore::with_layout(alloc, layout) else {
        return Err(ReadError::OutOfMemory);
    };
    let none = SetRead {
        store,
        left_out: LeftOut::NOTHING,
    };
    let Some(named) = read_table(alloc, connection, none, has_names, TableName::Metadata)? else {
        return Ok(None);
    };
    let has = has_contents(layout);
    let table = content_table(layout);
    let Some(held) = read_table(alloc, connection, named, has, table)? else {
        return Ok(None);
    };
    let Some(full) = read_table(alloc, connection, held, true, layout.tile_table())? else {
        return Ok(None);
    };
    Ok(Some(full))
}

// Reads a set in a layout, or flat where it can't be read so.
fn read_either<S: Alter>(
    alloc: Global,
    connection: &mut Connection<S>,
    layout: MbtType,
    has_names: bool,
) -> Result<SetRead, ReadError>
    ensures survives { CommitsNothing S.Store connection.old connection.new }
    ensures same { HasCleanDisk (state S.Store connection.new) → OnOk result
        (Stays (state S.Store connection.old) (state S.Store connection.new)) }
    ensures read { HasCleanDisk (state S.Store connection.new) → IfOk result
        (λ set. ReadsEither layout has_names (state S.Store connection.old) (read_of set)) }
    ensures told { IfOk result (λ set. IsSet (read_of set)) }
    ensures unfailing { IfOk result (λ set. NeverFails set.store) }
{
    if let Some(store) = read_layout(alloc, connection, layout, has_names)? {
        return Ok(store);
    }
    match read_layout(alloc, connection, MbtType::Flat, has_names)? {
        Some(store) => Ok(store),
        None => Err(ReadError::NotASet),
    }
}

// Reads a set in a layout, and where something is named `tiles` flat instead, where it can't be read so.
#[tactic(auto, using(crate::proofs::ReadLemmas::reads_by_either, crate::proofs::ReadLemmas::reads_by_layout, crate::proofs::FillLemmas::is_set))]
fn read_by<S: Alter>(
    alloc: Global,
    connection: &mut Connection<S>,
    has_tiles: bool,
    layout: MbtType,
    has_names: bool,
) -> Result<SetRead, ReadError>
    ensures survives { CommitsNothing S.Store connection.old connection.new }
    ensures same { HasCleanDisk (state S.Store connection.new) → OnOk result
        (Stays (state S.Store connection.old) (state S.Store connection.new)) }
    ensures read { HasCleanDisk (state S.Store connection.new) → IfOk result
        (λ set. ReadsBy has_tiles layout has_names (state S.Store connection.old)
        (read_of set)) }
    ensures told { IfOk result (λ set. IsSet (read_of set)) }
    ensures unfailing { IfOk result (λ set. NeverFails set.store) }
{
    if has_tiles {
        return read_either(alloc, connection, layout, has_names);
    }
    match read_layout(alloc, connection, layout, has_names)? {
        Some(store) => Ok(store),
        None => Err(ReadError::NotASet),
    }
}

// Reads a set in the layout that its tables and its view `tiles` tell, or flat through that view.
#[tactic(auto, using(crate::proofs::TextLemmas::master_asks))]
fn read_all<S: Alter>(alloc: Global, connection: &mut Connection<S>) -> Result<SetRead, ReadError>
    ensures survives { CommitsNothing S.Store connection.old connection.new }
    ensures same { HasCleanDisk (state S.Store connection.new) → OnOk result
        (Stays (state S.Store connection.old) (state S.Store connection.new)) }
    ensures read { HasCleanDisk (state S.Store connection.new) → IfOk result
        (λ set. ReadsSet (state S.Store connection.old) (read_of set)) }
    ensures told { IfOk result (λ set. IsSet (read_of set)) }
    ensures unfailing { IfOk result (λ set. NeverFails set.store) }
{
    let master = match ask(connection, of_master()) {
        Ok(master) => master,
        Err(cause) => return Err(refusal(TableName::Tiles, cause)),
    };
    let Some(layout) = first_layout(alloc, master.as_slice())? else {
        return Err(ReadError::NotASet);
    };
    let has_tiles = is_there(master.as_slice(), TableName::Tiles);
    let has_names = is_there(master.as_slice(), TableName::Metadata);
    let store = read_by(alloc, connection, has_tiles, layout, has_names)?;
    Ok(store)
}

/// Reads a set of a database into a store in memory, by one statement for each table, whose rows go into the store one
/// after another. A connection inside a transaction is a `Fault`. The store has the tables of the layout that the set
/// is read in: that which `detect_type` finds by the names of its tables, and `Flat`, through the table or view
/// `tiles`, for a set of no such layout, for a cache, and where one of its own tables lacks a column, has a key twice,
/// or has a value that isn't of its column.
///
/// Rows of tiles outside the grid of zooms 0 to 30 are left out and counted, and so are rows of the metadata whose name
/// or value is no text, or whose name stood before. `NotASet` where nothing has the name `tiles`; `OutsideGrid` where
/// all rows are left out; `Cell` where `tile_data` of `tiles` is a number; `Twice` where two of its rows of one place
/// differ; `Fault` with the table where the database refuses a statement.
pub fn read_set<S: Alter>(
    alloc: Global,
    connection: &mut Connection<S>,
) -> Result<SetRead, ReadError>
    ensures survives { CommitsNothing S.Store connection.old connection.new }
    ensures same { HasCleanDisk (state S.Store connection.new) → OnOk result
        (Stays (state S.Store connection.old) (state S.Store connection.new)) }
    ensures read { HasCleanDisk (state S.Store connection.new) → IfOk result
        (λ set. ReadsSet (state S.Store connection.old) (read_of set)) }
    ensures told { IfOk result (λ set. IsSet (read_of set)) }
    ensures unfailing { IfOk result (λ set. NeverFails set.store) }
{
    if !connection.is_autocommit() {
        return Err(ReadError::Fault {
            table: TableName::Tiles,
            cause: Error::SqliteFailure(ErrorCode::TransactionState),
        });
    }
    read_all(alloc, connection)
}
