// What of a set doesn't come into its archive. Standard error tells it.
use crate::TOOL;
use mb_reading::LeftOut;
use mb_store::{StoreError, TileStore};
use mb_tables::{Cell, Row, TableName};
use program_words::{say_misplaced, say_unnamed};
use set_conversion::ConversionOutcome;
use set_options::is_understood;

// How many rows of the metadata are read at once.
const PAGE: u64 = 1_000;

// Tells of a row of the metadata whose value isn't in the form that its name asks for. Whether it is.
fn say_misread(rt: &HostRuntime, path: &str, row: &Row) -> Result<bool, ConversionOutcome> {
    let [Cell::Text(name), Cell::Text(value)] = row.cells() else {
        return Ok(true);
    };
    let (name, value) = (name.as_str(), value.as_str());
    match is_understood(rt.alloc(), name, value) {
        Ok(true) => Ok(true),
        Ok(false) => {
            let _ = eprintln!(rt;
                "{TOOL}: {path}: {name} in the metadata is left out, since it isn't in form: {value}"
            );
            Ok(false)
        }
        Err(_) => Err(ConversionOutcome::OutOfMemory),
    }
}

// Tells of those of some rows. Whether there are none.
fn say_page(rt: &HostRuntime, path: &str, rows: &[Row]) -> Result<bool, ConversionOutcome> {
    let mut is_whole = true;
    for row in rows {
        is_whole = say_misread(rt, path, row)? && is_whole;
    }
    Ok(is_whole)
}

// Tells of those of the metadata. Whether there are none.
fn say_metadata<S: TileStore>(
    rt: &HostRuntime,
    path: &str,
    store: &mut S,
) -> Result<bool, ConversionOutcome> {
    let mut is_whole = true;
    for page in 0..u64::MAX / PAGE {
        let rows = match store.rows(rt.alloc(), TableName::Metadata, page * PAGE, PAGE) {
            Ok(rows) => rows,
            Err(StoreError::OutOfMemory) => return Err(ConversionOutcome::OutOfMemory),
            Err(StoreError::Fault) => return Err(ConversionOutcome::Unread),
        };
        is_whole = say_page(rt, path, rows.as_slice())? && is_whole;
        if (rows.len() as u64) < PAGE {
            return Ok(is_whole);
        }
    }
    Ok(is_whole)
}

/// Tells what of a set that was read is left out of its archive, a line for the rows of tiles and one for each thing of
/// the metadata. Whether nothing is.
pub fn say_left_out<S: TileStore>(
    rt: &HostRuntime,
    path: &str,
    store: &mut S,
    left: &LeftOut,
) -> Result<bool, ConversionOutcome> {
    let counts = (left.without_number, left.too_deep, left.outside_grid);
    let first = left
        .first
        .map(|it| (it.zoom_level, it.tile_column, it.tile_row));
    let tiles = say_misplaced(rt, TOOL, path, counts, first);
    let texts = say_unnamed(rt, TOOL, path, left.without_text, left.repeated_names);
    let names = say_metadata(rt, path, store)?;
    Ok(tiles && texts && names)
}
