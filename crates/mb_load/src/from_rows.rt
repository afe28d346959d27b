// A set from its rows.
ghost use Rattle.std.specs.Prelude.{◌≡◌, ◌≢◌, ◌&&◌, All, IfErr, IfOk, List, [], false, length, option_and_then, option_copied};
ghost use Rattle.mb_load.specs.Common.{algorithm_of, algorithm_unknown, AreIndexed, AreNamesInOrder, Cell, content_kind_wrong, get, has_tile_kinds, hash_wrong, id_twice, is_id, is_normalized, Kept};
ghost use Rattle.mb_load.specs.Common.{names_held, names_of, reference_missing, rows_kept, Tests, text_of, tile_bad, tile_kind_wrong};
ghost use Rattle.std.specs.List.{list_all};
ghost use Rattle.std.specs.Option.{option_or};
ghost use Rattle.mb_load.specs.Loading.{Loads, rows_due};

use crate::tiles_of_rows::tiles_of;
use base_values::TextVal;
use mb_constraints::{
    algorithm_by, test_content_hashes, test_references, test_tile_hashes, test_tiles,
};
use mb_lists::{ContentList, NameList, contents_from, have_id_kinds, have_tile_kinds};
use mb_loaded::{Loaded, set_of};
use mb_store::{Cell, HASH_ALGORITHM, MbtError, MbtResult, MbtType, PatchType, Row};
use std::alloc::Global;
use tile_hash::HashAlgorithm;

// Whether the cells of tile rows and the ids of contents are of their kinds.
fn have_kinds(layout: MbtType, contents: &ContentList, rows: &[Row]) -> bool
    ensures { result ≡ (list_all (has_tile_kinds layout) rows.now && list_all
        (λ c. is_id layout c.id) contents.now.items.items) }
{
    have_tile_kinds(layout, rows) && have_id_kinds(layout, &contents.items)
}

// The contents of rows with the order of their ids, or the refusal of the ids and of the kinds of cells.
fn contents_of(
    alloc: Global,
    layout: MbtType,
    contents: Vec<Row>,
    rows: &[Row],
) -> MbtResult<ContentList>
    requires { All (λ row. length row ≡ 2) contents.items }
    ensures tests { Tests
        (option_or (id_twice contents.items)
        (option_or (tile_kind_wrong layout rows.now) (content_kind_wrong layout contents.items)))
        result }
    ensures kept { IfOk result (λ l. rows_kept l.items.items ≡ contents.items) }
    ensures indexed { IfOk result (λ l. AreIndexed l.items.items l.live l.order.items) }
    ensures fresh { IfOk result (λ l. All (λ c. c.standing ≡ Kept) l.items.items) }
    ensures none { contents.items ≡ [] → IfOk result (λ l. l.items.items ≡ []) }
{
    let items = contents_from(alloc, contents)?;
    let ordered = ContentList::in_order(alloc, items)?;
    let contents = match ordered {
        Some(contents) => contents,
        None => return Err(MbtError::NoUniquenessConstraint),
    };
    if !have_kinds(layout, &contents, rows) {
        return Err(MbtError::InvalidDataFormat);
    }
    Ok(contents)
}

// The text of a cell.
fn text_of(cell: &Cell) -> Option<&TextVal>
    ensures { option_copied result ≡ text_of cell.now }
{
    match cell {
        Cell::Text(text) => Some(text),
        _ => None,
    }
}

// The text under a name.
fn text_under<'a>(names: &'a NameList, name: &str) -> Option<&'a TextVal>
    requires { AreNamesInOrder names.now.live names.now.items.items }
    ensures { option_copied result ≡ option_and_then
        (λ text. text) (get (names_held names.now.items.items) name.now) }
{
    match names.get(name) {
        Some(entry) => text_of(&entry.value),
        None => None,
    }
}

// The algorithm that names of metadata mean, or its refusal.
fn algorithm_in(alloc: Global, names: &NameList) -> MbtResult<HashAlgorithm>
    requires { AreNamesInOrder names.now.live names.now.items.items }
    ensures tests { (metadata : List (List Cell))
        → names_held names.now.items.items ≡ names_of metadata
        → Tests (algorithm_unknown metadata) result }
    ensures algorithm { (metadata : List (List Cell))
        → names_held names.now.items.items ≡ names_of metadata → IfOk result
        (λ a. a ≡ algorithm_of metadata) }
{
    algorithm_by(alloc, text_under(names, HASH_ALGORITHM))
}

// The tests of the places, the contents and the digests of rows.
fn test_rows(
    alloc: Global,
    layout: MbtType,
    algorithm: HashAlgorithm,
    contents: &ContentList,
    rows: &[Row],
) -> MbtResult<()>
    requires { AreIndexed contents.now.items.items contents.now.live contents.now.order.items }
    ensures { Tests (option_or (tile_bad layout (rows_kept contents.now.items.items) rows.now)
        (option_or (reference_missing layout (rows_kept contents.now.items.items) rows.now)
        (hash_wrong layout algorithm (rows_kept contents.now.items.items) rows.now))) result }
{
    test_tiles(alloc, layout, contents, rows)?;
    test_references(alloc, layout, contents, rows)?;
    test_tile_hashes(alloc, layout, algorithm, rows)?;
    test_content_hashes(alloc, layout, algorithm, &contents.items)?;
    Ok(())
}

/// The set of these rows, or the first refusal of the tests over them.
pub(crate) fn loaded_from(
    alloc: Global,
    layout: MbtType,
    patch_type: Option<PatchType>,
    metadata: Vec<Row>,
    contents: Vec<Row>,
    rows: Vec<Row>,
) -> MbtResult<Loaded>
    requires widths { All (λ row. length row ≡ 2) contents.items }
    requires none { is_normalized layout ≡ false → contents.items ≡ [] }
    ensures loads { Loads (rows_due layout patch_type metadata.items contents.items rows.items)
        result }
    ensures unfaulted { IfErr result (λ e. e ≢ MbtError.StoreFault) }
{
    let contents = contents_of(alloc, layout, contents, &rows)?;
    let names = NameList::of_rows(alloc, metadata)?;
    let algorithm = algorithm_in(alloc, &names)?;
    test_rows(alloc, layout, algorithm, &contents, &rows)?;
    let tiles = tiles_of(alloc, layout, contents, rows)?;
    match set_of(layout, algorithm, patch_type, tiles, names) {
        Some(set) => Ok(set),
        None => Err(MbtError::NoUniquenessConstraint),
    }
}
