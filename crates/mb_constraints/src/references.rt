// References from the rows of a normalised set to its contents.
ghost use Rattle.std.specs.Prelude.{◌≡◌, ◌||◌, IfErr, IfOk};
ghost use Rattle.mb_constraints.specs.Common.{AreIndexed, cell_at, cell_eq, contents_of, first_refused, is_null, list_any, rows_kept, Tests, unless};
ghost use Rattle.mb_constraints.specs.References.{id_text, missing_reference};

use base_values::TextVal;
use mb_lists::{ContentList, cell_at};
use mb_store::{Cell, MbtError, MbtResult, MbtType, NormalizedSchema, Row};
use std::alloc::Global;

// An id as text, a number in decimal.
fn id_text(alloc: Global, id: &Cell) -> MbtResult<TextVal>
    ensures text { IfOk result (λ t. t ≡ id_text id.now) }
    ensures memory { IfErr result (λ e. e ≡ MbtError.OutOfMemory) }
{
    match id {
        Cell::Text(text) => Ok(text.try_clone(alloc)?),
        Cell::Int(number) => Ok(TextVal::new(format!(in alloc; "{number}")?)),
        _ => Ok(TextVal::new(String::new(alloc))),
    }
}

// Whether an id is null or has contents.
fn has_contents(contents: &ContentList, id: &Cell) -> bool
    requires { AreIndexed contents.now.items.items contents.now.live contents.now.order.items }
    ensures { result ≡ (is_null id.now || list_any
        (λ c. cell_eq (cell_at 0 c) id.now) (rows_kept contents.now.items.items)) }
{
    if id.is_null() {
        return true;
    }
    contents.index_of(id).is_some()
}

// The test of the contents of an id.
fn test_id(
    alloc: Global,
    schema: NormalizedSchema,
    contents: &ContentList,
    id: &Cell,
) -> MbtResult<()>
    requires { AreIndexed contents.now.items.items contents.now.live contents.now.order.items }
    ensures { Tests (unless (is_null id.now || list_any
        (λ c. cell_eq (cell_at 0 c) id.now) (rows_kept contents.now.items.items))
        (MbtError.MissingTileReference (id_text id.now) (contents_of schema))) result }
{
    if has_contents(contents, id) {
        return Ok(());
    }
    let tile_id = id_text(alloc, id)?;
    let table = schema.contents();
    Err(MbtError::MissingTileReference { tile_id, table })
}

// The test of the contents that a row of a normalised set names.
fn test_id_of(
    alloc: Global,
    schema: NormalizedSchema,
    contents: &ContentList,
    row: &Row,
) -> MbtResult<()>
    requires { AreIndexed contents.now.items.items contents.now.live contents.now.order.items }
    ensures { Tests (unless (is_null (cell_at 3 row.now) || list_any
        (λ c. cell_eq (cell_at 0 c) (cell_at 3 row.now)) (rows_kept contents.now.items.items))
        (MbtError.MissingTileReference (id_text (cell_at 3 row.now)) (contents_of schema))) result }
{
    let null = Cell::Null;
    test_id(alloc, schema, contents, cell_at(row, 3, &null))
}

// The test of the contents that a row names.
fn test_reference(
    alloc: Global,
    layout: MbtType,
    contents: &ContentList,
    row: &Row,
) -> MbtResult<()>
    requires { AreIndexed contents.now.items.items contents.now.live contents.now.order.items }
    ensures { Tests (missing_reference layout (rows_kept contents.now.items.items) row.now) result }
{
    match layout {
        MbtType::Normalized { schema, .. } => test_id_of(alloc, schema, contents, row),
        _ => Ok(()),
    }
}

/// The test of the contents that all rows name: the first that aren't there.
pub fn test_references(
    alloc: Global,
    layout: MbtType,
    contents: &ContentList,
    rows: &[Row],
) -> MbtResult<()>
    requires { AreIndexed contents.now.items.items contents.now.live contents.now.order.items }
    ensures { Tests (first_refused (missing_reference layout (rows_kept contents.now.items.items))
        rows.now) result }
{
    for row in rows {
        test_reference(alloc, layout, contents, row)?;
    }
    Ok(())
}
