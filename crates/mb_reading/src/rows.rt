// Answers of a file as rows of a set. None is a row with a value that no set has there.
ghost use Rattle.std.specs.Prelude.{◌≡◌, IfOk, IfSome, Some, length};
ghost use Rattle.mb_reading.specs.Answer.{answer_row};
ghost use Rattle.mb_reading.specs.Common.{option_map, width};
ghost use Rattle.mb_reading.specs.Rows.{hashed_row, is_placed, pair_of, placed_row, row_in};

use crate::Answer;
use crate::answer::answer_of;
use crate::cells::{data_cell, digest_cell, name_cell, number_cell, place_cell, value_cell};
use base_values::OutOfMemory;
use mb_lists::coord_of;
use mb_tables::{Cell, Row, TableName};
use std::alloc::Global;

// A place, and a cell behind it.
fn placed_row(alloc: Global, answer: Answer<'_>, last: Cell) -> Result<Row, OutOfMemory>
    ensures row { IfOk result (λ row. row ≡ placed_row (answer_row answer.entry) last) }
    ensures wide { IfOk result (λ row. length row ≡ 4) }
{
    let zoom = place_cell(answer.first);
    let column = place_cell(answer.second);
    let line = place_cell(answer.third);
    let cells = vec![in alloc; zoom, column, line, last]?;
    Ok(Row::new(cells))
}

// A place, and a cell behind it, if there is one.
fn with_place(
    alloc: Global,
    answer: Answer<'_>,
    last: Option<Cell>,
) -> Result<Option<Row>, OutOfMemory>
    ensures row { IfOk result
        (λ row. row ≡ option_map (placed_row (answer_row answer.entry)) last) }
    ensures wide { IfOk result (λ row. IfSome row (λ row. length row ≡ 4)) }
{
    match last {
        Some(last) => Ok(Some(placed_row(alloc, answer, last)?)),
        None => Ok(None),
    }
}

// Two cells, if both are there.
fn pair_of(
    alloc: Global,
    first: Option<Cell>,
    second: Option<Cell>,
) -> Result<Option<Row>, OutOfMemory>
    ensures row { IfOk result (λ row. row ≡ pair_of first second) }
    ensures wide { IfOk result (λ row. IfSome row (λ row. length row ≡ 2)) }
{
    let Some(first) = first else {
        return Ok(None);
    };
    let Some(second) = second else {
        return Ok(None);
    };
    let cells = vec![in alloc; first, second]?;
    Ok(Some(Row::new(cells)))
}

// A tile.
fn tile_row(alloc: Global, answer: Answer<'_>) -> Result<Option<Row>, OutOfMemory>
    ensures row { IfOk result (λ row. row ≡ row_in TableName.Tiles (answer_row answer.entry)) }
    ensures wide { IfOk result (λ row. IfSome row (λ row. length row ≡ 4)) }
{
    let data = data_cell(alloc, answer.fourth)?;
    with_place(alloc, answer, data)
}

// A place, contents and their digest.
fn five_cells(
    alloc: Global,
    answer: Answer<'_>,
    bytes: Cell,
    hash: Cell,
) -> Result<Row, OutOfMemory>
    ensures row { IfOk result
        (λ row. Some row ≡ hashed_row (answer_row answer.entry) (Some bytes) (Some hash)) }
    ensures wide { IfOk result (λ row. length row ≡ 5) }
{
    let zoom = place_cell(answer.first);
    let column = place_cell(answer.second);
    let line = place_cell(answer.third);
    let cells = vec![in alloc; zoom, column, line, bytes, hash]?;
    Ok(Row::new(cells))
}

// A tile with the digest of its contents.
fn hashed_row(alloc: Global, answer: Answer<'_>) -> Result<Option<Row>, OutOfMemory>
    ensures row { IfOk result (λ row. row ≡ row_in TableName.TilesWithHash (answer_row answer.entry)) }
    ensures wide { IfOk result (λ row. IfSome row (λ row. length row ≡ 5)) }
{
    let data = data_cell(alloc, answer.fourth)?;
    let Some(data) = data else {
        return Ok(None);
    };
    let hash = digest_cell(alloc, answer.fifth)?;
    let Some(hash) = hash else {
        return Ok(None);
    };
    Ok(Some(five_cells(alloc, answer, data, hash)?))
}

// A place with the digest of its contents.
fn map_row(alloc: Global, answer: Answer<'_>) -> Result<Option<Row>, OutOfMemory>
    ensures row { IfOk result (λ row. row ≡ row_in TableName.Map (answer_row answer.entry)) }
    ensures wide { IfOk result (λ row. IfSome row (λ row. length row ≡ 4)) }
{
    let id = digest_cell(alloc, answer.fourth)?;
    with_place(alloc, answer, id)
}

// Contents with their digest.
fn image_row(alloc: Global, answer: Answer<'_>) -> Result<Option<Row>, OutOfMemory>
    ensures row { IfOk result (λ row. row ≡ row_in TableName.Images (answer_row answer.entry)) }
    ensures wide { IfOk result (λ row. IfSome row (λ row. length row ≡ 2)) }
{
    let id = digest_cell(alloc, answer.first)?;
    let data = data_cell(alloc, answer.second)?;
    pair_of(alloc, id, data)
}

// A place with the number of its contents.
fn shallow_row(alloc: Global, answer: Answer<'_>) -> Result<Option<Row>, OutOfMemory>
    ensures row { IfOk result (λ row. row ≡ row_in TableName.TilesShallow (answer_row answer.entry)) }
    ensures wide { IfOk result (λ row. IfSome row (λ row. length row ≡ 4)) }
{
    let id = number_cell(answer.fourth);
    with_place(alloc, answer, id)
}

// Contents with their number.
fn data_row(alloc: Global, answer: Answer<'_>) -> Result<Option<Row>, OutOfMemory>
    ensures row { IfOk result (λ row. row ≡ row_in TableName.TilesData (answer_row answer.entry)) }
    ensures wide { IfOk result (λ row. IfSome row (λ row. length row ≡ 2)) }
{
    let id = number_cell(answer.first);
    let data = data_cell(alloc, answer.second)?;
    pair_of(alloc, id, data)
}

// A text or null under a name.
fn name_row(alloc: Global, answer: Answer<'_>) -> Result<Option<Row>, OutOfMemory>
    ensures row { IfOk result (λ row. row ≡ row_in TableName.Metadata (answer_row answer.entry)) }
    ensures wide { IfOk result (λ row. IfSome row (λ row. length row ≡ 2)) }
{
    let name = name_cell(alloc, answer.first)?;
    let value = answer.second;
    let spelling = answer.third;
    let value = value_cell(alloc, value, spelling)?;
    pair_of(alloc, name, value)
}

/// The row of a table that the values of its set's columns are read as; of the metadata the third one is the text that
/// SQLite spells the second in. None where a value is one that no set has there.
pub fn row_of(
    alloc: Global,
    table: TableName,
    answer: Answer<'_>,
) -> Result<Option<Row>, OutOfMemory>
    ensures row { IfOk result (λ row. row ≡ row_in table (answer_row answer.entry)) }
    ensures wide { IfOk result (λ row. IfSome row (λ row. length row ≡ width table)) }
{
    match table {
        TableName::Tiles => tile_row(alloc, answer),
        TableName::TilesWithHash => hashed_row(alloc, answer),
        TableName::Map => map_row(alloc, answer),
        TableName::Images => image_row(alloc, answer),
        TableName::TilesShallow => shallow_row(alloc, answer),
        TableName::TilesData => data_row(alloc, answer),
        TableName::TileCache => Ok(None),
        TableName::Metadata => name_row(alloc, answer),
    }
}

// The row of a table that an answer is read as.
pub(crate) fn row_of_answer(
    alloc: Global,
    table: TableName,
    answer: &sqlite::Row,
) -> Result<Option<Row>, OutOfMemory>
    ensures row { IfOk result (λ row. row ≡ row_in table answer.now) }
    ensures wide { IfOk result (λ row. IfSome row (λ row. length row ≡ width table)) }
{
    row_of(alloc, table, answer_of(answer))
}

/// Whether a row of a tile has a place of zoom 0 to 30. Rows of other tables have no place.
pub fn is_placed(table: TableName, row: &Row) -> bool
    ensures { result ≡ is_placed table row.now }
{
    match table {
        TableName::Images | TableName::TilesData | TableName::Metadata => true,
        _ => coord_of(row).is_some(),
    }
}
