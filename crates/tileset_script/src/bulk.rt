// Sets that are made from two numbers.
ghost use Rattle.std.specs.Prelude.{◌≡◌, ◌≤◌, ◌<◌, ◌/◌, length, IfOk};
ghost use Rattle.tileset_script.specs.Common.{coord_of, told_of};
ghost use Rattle.tileset_script.specs.Bulk.{bulk_tables, numbered_row};
ghost use Rattle.tileset_script.specs.Section.{NeverFails};

use crate::layout::Layout;
use crate::section::Section;
use base_values::{BlobVal, OutOfMemory};
use itoa::Buffer;
use mb_store::{Cell, MbtType, MemStore, Row, TableName};
use std::alloc::Global;
use tile_ids::{TileCoord, TileId, invert_y_value};

// The coordinate of an id.
#[tactic(auto, using(crate::proofs::BulkLemmas::is_coord_of))]
fn coord_of(id: u64) -> TileCoord
    requires { id < 100000 }
    ensures { result ≡ coord_of id }
{
    let Ok(id) = TileId::new(id) else {
        unreachable!()
    };
    TileCoord::from(id)
}

// The row of a coordinate, whose contents are a number in decimal.
fn row_at(alloc: Global, coord: TileCoord, number: u64) -> Result<Row, OutOfMemory>
    ensures row { IfOk result (λ row. row ≡ numbered_row coord number) }
    ensures wide { IfOk result (λ row. length row ≡ 4) }
{
    let line = invert_y_value(coord.z(), coord.y());
    let contents = Vec::from_slice(alloc, Buffer::new().format(number).as_bytes())?;
    let cells = vec![in alloc;
        Cell::Int(i64::from(coord.z())),
        Cell::Int(i64::from(coord.x())),
        Cell::Int(i64::from(line)),
        Cell::Blob(BlobVal::new(contents)),
    ]?;
    Ok(Row::new(cells))
}

/// The base of `bulk`: a flat set with a tile for each id below a number, whose contents are the decimal text of its id
/// by `repeat`, rounded down. No call of the store fails.
pub fn bulk_base(alloc: Global, tiles: u64, repeat: u64) -> Result<MemStore, OutOfMemory>
    requires tiles { tiles ≤ 100000 }
    requires repeat { 0 < repeat }
    ensures told { IfOk result (λ base. told_of base ≡ bulk_tables tiles repeat) }
    ensures unfailing { IfOk result NeverFails }
{
    let mut base = Section::new(alloc, Layout::Set(MbtType::Flat))?;
    for id in 0..tiles {
        let row = row_at(alloc, coord_of(id), id / repeat)?;
        // No id comes twice, so that each row's key is new.
        if !base.take_row(TableName::Tiles, row)? {
            return Err(OutOfMemory);
        }
    }
    Ok(base.into_store())
}
