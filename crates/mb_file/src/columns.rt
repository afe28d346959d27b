// Where a table has the columns of its set.
ghost use Rattle.std.specs.Prelude.{◌≡◌, IfOk, IfSome, None, Ok, map};
ghost use Rattle.sqlite_resolve.specs.Compile.{table_defined_by};
ghost use Rattle.mb_file.specs.Columns.{AreColumns, AreColumnsBy, HasRowids, IsDefined, IsNumbered, column_at, column_of, key_columns, names_of};

use crate::FileError;
use crate::keyed::{before_without_rowid, key_of, place_in_record};
use mb_tables::TableName;
use sqlite_resolve::{CompileError, define_table};
use sqlite_schema::code::{lend_value, own_value};
use sqlite_schema::schema::{self, Kind};
use sqlite_syntax::error::ParseError;
use sqlite_value::value::Value;
use std::alloc::Global;

// A column of a table.
#[derive(Drop)]
pub(crate) struct Column {
    // Its place in the records.
    pub(crate) at: usize,
    // Whether it is the rowid, which records have as NULL. A table WITHOUT ROWID has none.
    pub(crate) is_key: bool,
    // Whether whole numbers in it are floating point numbers.
    pub(crate) is_real: bool,
    // Its value in a record that is too short for it.
    pub(crate) default: Value,
}

// The columns of a set's table.
#[derive(Drop)]
pub(crate) struct Columns {
    // How many columns the key of a table WITHOUT ROWID has, which come first in its records. None of another table.
    pub(crate) key: Option<usize>,
    pub(crate) first: Column,
    pub(crate) second: Column,
    pub(crate) third: Option<Column>,
    pub(crate) fourth: Option<Column>,
    pub(crate) fifth: Option<Column>,
}

// A table by the text that makes it.
#[derive(Drop)]
struct Made {
    table: schema::Table,
    // The columns of its key, None where it has rowids.
    key: Option<Vec<usize>>,
}

// The names of the columns of a table, in the order of its set.
#[tactic(auto, unfolding(crate::specs::Columns::names_of))]
fn names(table: TableName) -> &'static [&'static str]
    ensures { map (λ name. name.now) result.now ≡ names_of table }
{
    match table {
        TableName::Tiles => &["zoom_level", "tile_column", "tile_row", "tile_data"],
        TableName::TilesWithHash => {
            &[
                "zoom_level",
                "tile_column",
                "tile_row",
                "tile_data",
                "tile_hash",
            ]
        }
        TableName::Map => &["zoom_level", "tile_column", "tile_row", "tile_id"],
        TableName::Images => &["tile_id", "tile_data"],
        TableName::TilesShallow => &["zoom_level", "tile_column", "tile_row", "tile_data_id"],
        TableName::TilesData => &["tile_data_id", "tile_data"],
        TableName::TileCache => &[],
        TableName::Metadata => &["name", "value"],
    }
}

// A column by its number in the table.
fn column_at(
    alloc: Global,
    made: &Made,
    number: usize,
    found: &schema::Column,
) -> Result<Column, FileError>
    ensures { IfOk result
        (λ column. column ≡ column_at made.now.table (key_columns made.now) number found.now) }
{
    let (at, is_key) = match &made.key {
        Some(key) => (place_in_record(key.as_slice(), number), false),
        None => (number, made.table.key == Some(number)),
    };
    let default = own_value(alloc, lend_value(&found.default))?;
    Ok(Column {
        at,
        is_key,
        is_real: found.kind == Kind::Real,
        default,
    })
}

// A column by its name, None where the table has none.
#[tactic(auto, unfolding(crate::specs::Columns::column_of))]
fn column_of(alloc: Global, made: &Made, name: &str) -> Result<Option<Column>, FileError>
    ensures { IfOk result
        (λ column. column ≡ column_of made.now.table (key_columns made.now) name.now) }
{
    let Some(number) = made.table.column_named(name.as_bytes()) else {
        return Ok(None);
    };
    let Some(found) = made.table.columns.get(number) else {
        return Ok(None);
    };
    Ok(Some(column_at(alloc, made, number, found)?))
}

// A column of a table by its number in the set, None where the set has fewer.
fn numbered(
    alloc: Global,
    made: &Made,
    table: TableName,
    number: usize,
) -> Result<Option<Column>, FileError>
    ensures { IfOk result (IsNumbered made.now.table (key_columns made.now) table number) }
{
    let Some(name) = names(table).get(number) else {
        return Ok(None);
    };
    match column_of(alloc, made, name)? {
        Some(found) => Ok(Some(found)),
        None => Err(FileError::Column { table }),
    }
}

// The table that a text makes, None where the kit doesn't understand it.
fn defined(alloc: Global, text: &[u8]) -> Result<Option<schema::Table>, FileError>
    ensures { IfOk result (IsDefined text.now) }
{
    match define_table(alloc, text) {
        Ok(made) => Ok(Some(made)),
        Err(CompileError::OutOfMemory | CompileError::Parse(ParseError::OutOfMemory)) => {
            Err(FileError::OutOfMemory)
        }
        Err(_) => Ok(None),
    }
}

// The table WITHOUT ROWID that a text makes, None where it or its key isn't understood.
fn keyed(alloc: Global, table: TableName, text: &[u8]) -> Result<Option<Made>, FileError>
    ensures { IfOk result (λ made. IfSome made (λ made. ¬ (made.key ≡ None))) }
{
    let Some(text) = before_without_rowid(text) else {
        return Ok(None);
    };
    let Some(made) = defined(alloc, text)? else {
        return Ok(None);
    };
    match key_of(alloc, table, &made, names(table), text)? {
        Some(key) => Ok(Some(Made {
            table: made,
            key: Some(key),
        })),
        None => Ok(None),
    }
}

// The table that a text makes.
fn made_by(alloc: Global, table: TableName, text: &[u8]) -> Result<Made, FileError>
    ensures made { IfOk result
        (λ made. made.key ≡ None → table_defined_by text.now ≡ Ok made.table) }
    ensures rowids { IfOk result (λ made. HasRowids text.now → made.key ≡ None) }
{
    if let Some(made) = defined(alloc, text)? {
        return Ok(Made {
            table: made,
            key: None,
        });
    }
    match keyed(alloc, table, text)? {
        Some(made) => Ok(made),
        None => Err(FileError::Table { table }),
    }
}

// The columns of a table that a text makes.
fn columns_of(alloc: Global, table: TableName, made: &Made) -> Result<Columns, FileError>
    ensures { IfOk result (AreColumns made.now.table (key_columns made.now) table) }
{
    let key = made.key.as_ref().map(|key| key.len());
    let Some(first) = numbered(alloc, made, table, 0)? else {
        return Err(FileError::Column { table });
    };
    let Some(second) = numbered(alloc, made, table, 1)? else {
        return Err(FileError::Column { table });
    };
    Ok(Columns {
        key,
        first,
        second,
        third: numbered(alloc, made, table, 2)?,
        fourth: numbered(alloc, made, table, 3)?,
        fifth: numbered(alloc, made, table, 4)?,
    })
}

// The columns of a table by the text that makes it.
pub(crate) fn columns_by(alloc: Global, table: TableName, text: &[u8]) -> Result<Columns, FileError>
    ensures columns { IfOk result
        (λ columns. columns.key ≡ None → AreColumnsBy table text.now columns) }
    ensures rowids { IfOk result (λ columns. HasRowids text.now → columns.key ≡ None) }
{
    let made = made_by(alloc, table, text)?;
    columns_of(alloc, table, &made)
}
