// The changes of a loaded set.
ghost use Rattle.std.specs.Prelude.{◌≡◌, ◌++◌, All, IfOk, OnOk, Some, [], false, filter_map};
ghost use Rattle.mb_loaded.specs.Common.{Apart, cell_cmp, id_at, IsTile, key_width, Metadata, name_of, nat_cmp, place_cmp, place_of, slice_cmp, table_eq, width};
ghost use Rattle.mb_loaded.specs.Changing.{AreChangesOf, content_table};
ghost use Rattle.mb_loaded.specs.PutRows.{change_by, content_change, id_key, listed_change, name_change, row_of_content, tile_change, with_any};

use crate::Loaded;
use crate::put_rows::{content_row, contents_table, id_key, name_row, place_key, tile_row};
use base_values::OutOfMemory;
use mb_lists::{Content, Standing, StoredName, StoredTile};
use mb_store::{Changes, MbtType, RowKey, TableName};
use std::alloc::Global;
use tile_hash::HashAlgorithm;

// The change of a tile, if it was edited.
fn add_tile(
    alloc: Global,
    changes: &mut Changes,
    layout: MbtType,
    algorithm: HashAlgorithm,
    contents: &[Content],
    tile: &StoredTile,
) -> Result<(), OutOfMemory>
    requires { IsTile contents.now tile.now }
    ensures { OnOk result
        (changes.new ≡ with_any changes.old (tile_change layout algorithm contents.now tile.now)) }
{
    match tile.standing {
        Standing::Kept => Ok(()),
        Standing::Put => {
            let row = tile_row(alloc, layout, algorithm, contents, tile)?;
            changes.put(layout.tile_table(), place_key(tile.coord), row)
        }
        Standing::Removed => changes.delete(layout.tile_table(), place_key(tile.coord)),
    }
}

// The change of contents, if they were edited, with the key of their id.
fn add_keyed(
    alloc: Global,
    changes: &mut Changes,
    table: TableName,
    key: RowKey,
    content: &Content,
) -> Result<(), OutOfMemory>
    requires id { id_key content.now.id ≡ Some key }
    requires width { width table ≡ 2 }
    requires keyed { key_width table ≡ 1 }
    ensures { OnOk result
        (changes.new ≡ with_any changes.old
        (change_by content.now.standing (row_of_content content.now)
        (λ row. record { table = table; key = key; row = row }))) }
{
    match content.standing {
        Standing::Kept => Ok(()),
        Standing::Put => {
            let row = content_row(alloc, content)?;
            changes.put(table, key, row)
        }
        Standing::Removed => changes.delete(table, key),
    }
}

// The change of contents, if they have an id and were edited.
fn add_content(
    alloc: Global,
    changes: &mut Changes,
    layout: MbtType,
    content: &Content,
) -> Result<(), OutOfMemory>
    ensures { OnOk result (changes.new ≡ with_any changes.old (content_change layout content.now)) }
{
    match id_key(alloc, &content.id)? {
        Some(key) => add_keyed(alloc, changes, contents_table(layout), key, content),
        None => Ok(()),
    }
}

// The change of listed contents, if they were edited.
fn add_listed(
    alloc: Global,
    changes: &mut Changes,
    layout: MbtType,
    contents: &[Content],
    index: usize,
) -> Result<(), OutOfMemory>
    ensures { OnOk result
        (changes.new ≡ with_any changes.old (listed_change layout contents.now index)) }
{
    match contents.get(index) {
        Some(content) => add_content(alloc, changes, layout, content),
        None => Ok(()),
    }
}

// The change of a name, if it was edited.
fn add_name(alloc: Global, changes: &mut Changes, entry: &StoredName) -> Result<(), OutOfMemory>
    ensures { OnOk result (changes.new ≡ with_any changes.old (name_change entry.now)) }
{
    match entry.standing {
        Standing::Kept => Ok(()),
        Standing::Put => {
            let key = RowKey::TextId(entry.name.try_clone(alloc)?);
            let row = name_row(alloc, entry)?;
            changes.put(TableName::Metadata, key, row)
        }
        Standing::Removed => {
            let key = RowKey::TextId(entry.name.try_clone(alloc)?);
            changes.delete(TableName::Metadata, key)
        }
    }
}

// The changes of all tiles.
fn add_tiles(
    alloc: Global,
    changes: &mut Changes,
    layout: MbtType,
    algorithm: HashAlgorithm,
    contents: &[Content],
    tiles: &[StoredTile],
) -> Result<(), OutOfMemory>
    requires none { changes.old ≡ [] }
    requires apart { Apart place_cmp place_of tiles.now }
    requires whole { All (IsTile contents.now) tiles.now }
    ensures { OnOk result (changes.new ≡ filter_map (tile_change layout algorithm contents.now)
        tiles.now) }
{
    for tile in tiles {
        add_tile(alloc, changes, layout, algorithm, contents, tile)?;
    }
    Ok(())
}

// The changes of all contents that have an id.
fn add_contents(
    alloc: Global,
    changes: &mut Changes,
    layout: MbtType,
    contents: &[Content],
    order: &[usize],
) -> Result<(), OutOfMemory>
    requires others { All (λ c. table_eq c.table (content_table layout) ≡ false) changes.old }
    requires apart { Apart cell_cmp (id_at contents.now) order.now }
    ensures { OnOk result
        (changes.new ≡ changes.old ++ filter_map (listed_change layout contents.now) order.now) }
{
    for index in order {
        add_listed(alloc, changes, layout, contents, *index)?;
    }
    Ok(())
}

/// The changes of all names.
pub(crate) fn add_names(
    alloc: Global,
    changes: &mut Changes,
    names: &[StoredName],
) -> Result<(), OutOfMemory>
    requires others { All (λ c. table_eq c.table Metadata ≡ false) changes.old }
    requires apart { Apart (slice_cmp nat_cmp) name_of names.now }
    ensures { OnOk result (changes.new ≡ changes.old ++ filter_map name_change names.now) }
{
    for entry in names {
        add_name(alloc, changes, entry)?;
    }
    Ok(())
}

impl Loaded {
    /// The changes that turn the tables that were loaded into tables of the present state: for each place, id and
    /// name that was edited, its row or none. Rows of bytes have their digest, where the layout has one. All
    /// other rows stay as they are.
    pub fn changes(&self, alloc: Global) -> Result<Changes, OutOfMemory>
        ensures { IfOk result (λ changes. AreChangesOf self.now changes) }
    {
        let mut changes = Changes::new(alloc);
        add_tiles(
            alloc,
            &mut changes,
            self.layout,
            self.algorithm,
            &self.contents.items,
            &self.tiles.items,
        )?;
        add_contents(
            alloc,
            &mut changes,
            self.layout,
            &self.contents.items,
            &self.contents.order,
        )?;
        add_names(alloc, &mut changes, &self.names.items)?;
        Ok(changes)
    }
}
