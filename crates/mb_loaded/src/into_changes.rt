// The changes of a loaded set that is let go, its contents moved into their rows.
ghost use Rattle.std.specs.Prelude.{◌≡◌, ◌++◌, ◌<◌, ℕ, All, IfOk, OnOk, Some, [], false, filter_map, length, nat_eq, set, slice_get};
ghost use Rattle.mb_loaded.specs.Changing.{AreChangesOf, content_table};
ghost use Rattle.mb_loaded.specs.Common.{Apart, cell_cmp, HasId, id_at, is_gone, is_null, IsTile, key_width, place_cmp, place_of, Put, table_eq, width};
ghost use Rattle.mb_loaded.specs.PutRows.{change_by, content_change, id_key, listed_change, row_of_content, row_of_tile, tile_change, with_any};
ghost use Rattle.mb_loaded.specs.Taking.{AreLast, Spends, taken};

use crate::Loaded;
use crate::changes::add_names;
use crate::last_uses::last_uses;
use crate::moved_rows::{moved_content_row, moved_row};
use crate::put_rows::{contents_table, id_key, place_key, tile_row};
use crate::spending::{drop_spent, next_tile};
use crate::taking::take_content;
use base_values::OutOfMemory;
use mb_lists::{Content, ContentList, Standing, StoredTile, TileList};
use mb_store::{Changes, MbtType, Row, RowKey, TableName};
use std::alloc::Global;
use std::collections::VecDeque;
use tile_hash::HashAlgorithm;

// The row of a tile. Contents without an id are moved into the row of the last tile that is put with them.
fn spent_row(
    alloc: Global,
    layout: MbtType,
    algorithm: HashAlgorithm,
    contents: &mut Vec<Content>,
    is_last: bool,
    tile: &StoredTile,
) -> Result<Row, OutOfMemory>
    requires whole { IsTile contents.old.items tile.now }
    requires live { is_gone tile.now ≡ false }
    ensures row { IfOk result
        (λ row. row ≡ row_of_tile layout algorithm contents.old.items tile.now) }
    ensures spent { Spends is_last tile.now.contents contents.old.items contents.new.items }
{
    if is_last && contents[tile.contents].id.is_null() {
        let content = take_content(contents, tile.contents);
        return moved_row(alloc, layout, algorithm, content, tile);
    }
    tile_row(alloc, layout, algorithm, contents.as_slice(), tile)
}

// The change of a tile, if it was edited.
fn add_tile(
    alloc: Global,
    changes: &mut Changes,
    layout: MbtType,
    algorithm: HashAlgorithm,
    contents: &mut Vec<Content>,
    is_last: bool,
    tile: &StoredTile,
) -> Result<(), OutOfMemory>
    requires { tile.now.standing ≡ Put → IsTile contents.old.items tile.now }
    ensures change { OnOk result (changes.new
        ≡ with_any changes.old (tile_change layout algorithm contents.old.items tile.now)) }
    ensures spent { Spends is_last tile.now.contents contents.old.items contents.new.items }
{
    match tile.standing {
        Standing::Kept => Ok(()),
        Standing::Put => {
            let row = spent_row(alloc, layout, algorithm, contents, is_last, tile)?;
            changes.put(layout.tile_table(), place_key(tile.coord), row)
        }
        Standing::Removed => changes.delete(layout.tile_table(), place_key(tile.coord)),
    }
}

// Whether the tile at an index is the last one that is put with its contents.
fn is_last(last: &[usize], index: usize, tile: &StoredTile) -> bool
    ensures { (m : ℕ) → slice_get last.now tile.now.contents ≡ Some m → result ≡ nat_eq m index }
{
    match last.get(tile.contents) {
        Some(at) => *at == index,
        None => false,
    }
}

// The changes of all tiles, which go as their rows are made. Of the contents those that have an
// id are there afterwards.
fn add_tiles(
    alloc: Global,
    changes: &mut Changes,
    layout: MbtType,
    algorithm: HashAlgorithm,
    contents: &mut Vec<Content>,
    last: &[usize],
    tiles: Vec<StoredTile>,
) -> Result<(), OutOfMemory>
    requires none { changes.old ≡ [] }
    requires apart { Apart place_cmp place_of tiles.items }
    requires whole { All (IsTile contents.old.items) tiles.items }
    requires last { AreLast tiles.items last.now }
    ensures changes { OnOk result
        (changes.new ≡ filter_map (tile_change layout algorithm contents.old.items) tiles.items) }
    ensures left { OnOk result ((k : ℕ) → is_null (id_at contents.old.items k) ≡ false
        → slice_get contents.new.items k ≡ slice_get contents.old.items k) }
{
    let mut left = VecDeque::from_vec(tiles);
    let mut index = 0;
    while let Some(tile) = next_tile(&mut left) {
        let ends = is_last(last, index, &tile);
        add_tile(alloc, changes, layout, algorithm, contents, ends, &tile)?;
        index += 1;
        drop_spent(contents, last, index);
    }
    Ok(())
}

// The change of contents, if they were edited, with the key of their id.
fn add_keyed(
    alloc: Global,
    changes: &mut Changes,
    table: TableName,
    key: RowKey,
    content: Content,
) -> Result<(), OutOfMemory>
    requires id { id_key content.id ≡ Some key }
    requires width { width table ≡ 2 }
    requires keyed { key_width table ≡ 1 }
    ensures { OnOk result (changes.new ≡ with_any changes.old (change_by content.standing
        (row_of_content content) (λ row. record { table = table; key = key; row = row }))) }
{
    match content.standing {
        Standing::Kept => Ok(()),
        Standing::Put => {
            let row = moved_content_row(alloc, content)?;
            changes.put(table, key, row)
        }
        Standing::Removed => changes.delete(table, key),
    }
}

// The change of contents, if they have an id and were edited.
fn add_content(
    alloc: Global,
    changes: &mut Changes,
    layout: MbtType,
    content: Content,
) -> Result<(), OutOfMemory>
    ensures { OnOk result (changes.new ≡ with_any changes.old (content_change layout content)) }
{
    match id_key(alloc, &content.id)? {
        Some(key) => add_keyed(alloc, changes, contents_table(layout), key, content),
        None => Ok(()),
    }
}

// The change of listed contents, if they were edited. They are taken out of the list.
fn add_listed(
    alloc: Global,
    changes: &mut Changes,
    layout: MbtType,
    contents: &mut Vec<Content>,
    index: usize,
) -> Result<(), OutOfMemory>
    requires { index < length contents.old.items }
    ensures change { OnOk result
        (changes.new ≡ with_any changes.old (listed_change layout contents.old.items index)) }
    ensures left { OnOk result (contents.new.items ≡ set contents.old.items index taken) }
{
    let content = take_content(contents, index);
    add_content(alloc, changes, layout, content)
}

// The changes of all contents that have an id.
fn add_contents(
    alloc: Global,
    changes: &mut Changes,
    layout: MbtType,
    contents: &mut Vec<Content>,
    order: &[usize],
) -> Result<(), OutOfMemory>
    requires others { All (λ c. table_eq c.table (content_table layout) ≡ false) changes.old }
    requires apart { Apart cell_cmp (id_at contents.old.items) order.now }
    requires ids { All (HasId contents.old.items) order.now }
    ensures { OnOk result (changes.new
        ≡ changes.old ++ filter_map (listed_change layout contents.old.items) order.now) }
{
    let mut index = 0;
    while index < order.len() {
        add_listed(alloc, changes, layout, contents, order[index])?;
        index += 1;
    }
    Ok(())
}

impl Loaded {
    /// The changes that turn the tables that were loaded into tables of the present state, as `changes` gives them. The
    /// set is let go: each of its contents is moved into the row of the last tile that is put with them, or into their
    /// own row where they have an id, so that the contents are not held twice. Its list of tiles goes as their rows are
    /// made, and so do contents without an id at the end of theirs.
    pub fn into_changes(self, alloc: Global) -> Result<Changes, OutOfMemory>
        ensures { IfOk result (λ changes. AreChangesOf self changes) }
    {
        let Loaded {
            layout,
            algorithm,
            patch_type: _,
            contents,
            tiles,
            names,
        } = self;
        let ContentList {
            items: mut contents,
            order,
            live: _,
        } = contents;
        let TileList {
            items: tiles,
            live: _,
        } = tiles;
        let last = last_uses(alloc, contents.len(), &tiles)?;
        let mut changes = Changes::new(alloc);
        add_tiles(
            alloc,
            &mut changes,
            layout,
            algorithm,
            &mut contents,
            &last,
            tiles,
        )?;
        add_contents(alloc, &mut changes, layout, &mut contents, &order)?;
        add_names(alloc, &mut changes, &names.items)?;
        Ok(changes)
    }
}
