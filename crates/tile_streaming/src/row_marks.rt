// The marks of rows of tiles.
ghost use Rattle.std.specs.Prelude.{◌≡◌, ◌++◌, OnOk, [], List};
ghost use Rattle.tile_streaming.specs.Common.{AreIndexed, Cell, id_of, IsCoord};
ghost use Rattle.std.specs.List.{cons_option};
ghost use Rattle.tile_streaming.specs.Contents.{Knows};
ghost use Rattle.tile_streaming.specs.RowMarks.{content_mark_in, mark_in, marks_in};

use crate::content_marks::mark_of_cell;
use crate::contents::Known;
use crate::mark::{ContentMark, Mark};
use base_values::OutOfMemory;
use mb_lists::{cell_at, coord_of};
use mb_store::{Cell, MbtType, Row};
use tile_ids::{TileCoord, TileId};

/// The mark of a coordinate and contents.
pub(crate) fn mark_at(coord: TileCoord, contents: ContentMark) -> Mark
    ensures mark { result ≡ record {
      id = id_of coord;
      digest = contents.digest;
      length = contents.length;
      is_long = contents.is_long;
      gzip = contents.gzip;
    } }
    ensures within { IsCoord coord }
{
    let _zoom = coord.z();
    Mark {
        id: TileId::from(coord),
        digest: contents.digest,
        length: contents.length,
        is_long: contents.is_long,
        gzip: contents.gzip,
    }
}

// The mark of the contents of a row, its own or those of its id.
fn content_mark_in(layout: MbtType, known: &Known, row: &Row) -> Option<ContentMark>
    requires { AreIndexed known.now.list.items.items known.now.list.live
        known.now.list.order.items }
    ensures { (contents : List (List Cell)) → Knows contents known.now
        → result ≡ content_mark_in layout contents row.now }
{
    let null = Cell::Null;
    match layout {
        MbtType::Flat => mark_of_cell(cell_at(row, 3, &null)),
        MbtType::FlatWithHash => mark_of_cell(cell_at(row, 3, &null)),
        MbtType::Cache => mark_of_cell(cell_at(row, 6, &null)),
        MbtType::Normalized { .. } => known.mark_under(cell_at(row, 3, &null)),
    }
}

// The mark of a row, none where it is no tile.
fn mark_in(layout: MbtType, known: &Known, row: &Row) -> Option<Mark>
    requires { AreIndexed known.now.list.items.items known.now.list.live
        known.now.list.order.items }
    ensures { (contents : List (List Cell)) → Knows contents known.now
        → result ≡ mark_in layout contents row.now }
{
    let coord = coord_of(row)?;
    let contents = content_mark_in(layout, known, row)?;
    Some(mark_at(coord, contents))
}

// Adds a mark, if there is one.
fn add_mark(marks: &mut Vec<Mark>, mark: Option<Mark>) -> Result<(), OutOfMemory>
    ensures { OnOk result (marks.new.items ≡ marks.old.items ++ cons_option mark []) }
{
    if let Some(mark) = mark {
        marks.push(mark)?;
    }
    Ok(())
}

/// Adds the marks of rows, in their order.
pub(crate) fn add_marks(
    marks: &mut Vec<Mark>,
    layout: MbtType,
    known: &Known,
    rows: &[Row],
) -> Result<(), OutOfMemory>
    requires { AreIndexed known.now.list.items.items known.now.list.live
        known.now.list.order.items }
    ensures { (contents : List (List Cell)) → Knows contents known.now → OnOk result
        (marks.new.items ≡ marks.old.items ++ marks_in layout contents rows.now) }
{
    for row in rows {
        add_mark(marks, mark_in(layout, known, row))?;
    }
    Ok(())
}
