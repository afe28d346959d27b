// A loaded set that takes many edits.
ghost use Rattle.std.specs.Prelude.{◌≡◌, IfOk, OnErr, OnOk, true};
ghost use Rattle.mb_loaded.specs.Common.{Cache, contains_key, is_text, place_at, text_of};
ghost use Rattle.mb_loaded.specs.Edits.{removed_name, removed_tile, with_dates, with_name, with_null, with_tile};

use crate::Loaded;
use crate::adding::{add_content, dates_for, id_for, list_id, null_content};
use base_values::{BlobVal, OutOfMemory, TextVal};
use mb_lists::{
    Content, ContentList, Dates, NameList, Standing, StoredName, StoredTile, TileDates, TileList,
    push_dated,
};
use mb_store::{Cell, MbtType, PatchType};
use std::marker::Model;
use tile_hash::HashAlgorithm;
use tile_ids::TileCoord;

/// A loaded set that takes edits in any order, each in the time of a push: what was put last counts. `settle`
/// puts all in order again.
#[derive(Drop)]
pub struct Editing {
    pub(crate) layout: MbtType,
    pub(crate) algorithm: HashAlgorithm,
    pub(crate) patch_type: Option<PatchType>,
    pub(crate) contents: Vec<Content>,
    pub(crate) order: Vec<usize>,
    pub(crate) tiles: Vec<StoredTile>,
    pub(crate) names: Vec<StoredName>,
}

impl Model for Editing {
    ghost use Rattle.std.specs.Prelude.{All};
    ghost use Rattle.mb_loaded.specs.Held.{Held};
    ghost use Rattle.mb_loaded.specs.HeldCode.{held_code};
    ghost use Rattle.mb_loaded.specs.Common.{HasId, IsDated, IsName, IsTile, newest_ids, newest_names, newest_tiles};
    ghost use Rattle.mb_loaded.specs.HeldEntries.{held_of};

    ghost Value = { Held };

    ghost coded = { held_code };

    ghost view = { λ l. held_of l.layout l.algorithm l.patch_type l.contents.items
        (newest_ids l.contents.items l.order.items)
        (newest_tiles l.tiles.items) (newest_names l.names.items) };

    ghost invariant = { λ l. All (IsTile l.contents.items) l.tiles.items
        × All (HasId l.contents.items) l.order.items
        × All (IsDated l.layout) l.tiles.items
        × All IsName l.names.items };
}

impl Loaded {
    /// Opens the set for many edits.
    pub fn edit(self) -> Editing
        ensures { result ≡ self }
    {
        let Loaded {
            layout,
            algorithm,
            patch_type,
            contents,
            tiles,
            names,
        } = self;
        Editing {
            layout,
            algorithm,
            patch_type,
            contents: contents.items,
            order: contents.order,
            tiles: tiles.items,
            names: names.items,
        }
    }
}

impl Editing {
    /// Puts bytes at a coordinate: in a normalised set under their digest by the set's algorithm,
    /// in a cache without times.
    pub fn set_tile(&mut self, coord: TileCoord, bytes: BlobVal) -> Result<(), OutOfMemory>
        ensures ok { OnOk result (self.new ≡ with_tile self.old (place_at coord) bytes) }
        ensures err { OnErr result (self.new ≡ self.old) }
    {
        let alloc = *self.contents.allocator();
        let id = id_for(alloc, self.layout, self.algorithm, bytes.as_bytes())?;
        let dates = dates_for(alloc, self.layout)?;
        self.order.reserve(1)?;
        self.tiles.reserve(1)?;
        let is_null = id.is_null();
        let content = Content {
            id,
            cell: Cell::Blob(bytes),
            standing: Standing::Put,
        };
        let contents = add_content(&mut self.contents, content)?;
        list_id(&mut self.order, is_null, contents);
        self.tiles.push_reserved(StoredTile {
            coord,
            contents,
            dates,
            standing: Standing::Put,
        });
        Ok(())
    }

    /// Puts null at a coordinate of a set without ids, in a cache without times.
    pub fn set_null(&mut self, coord: TileCoord) -> Result<(), OutOfMemory>
        ensures ok { OnOk result (self.new ≡ with_null self.old (place_at coord)) }
        ensures err { OnErr result (self.new ≡ self.old) }
    {
        let alloc = *self.contents.allocator();
        let dates = dates_for(alloc, self.layout)?;
        self.tiles.reserve(1)?;
        let contents = add_content(&mut self.contents, null_content())?;
        self.tiles.push_reserved(StoredTile {
            coord,
            contents,
            dates,
            standing: Standing::Put,
        });
        Ok(())
    }

    /// Gives the tile at a coordinate of a cache other times: when it was fetched and when it expires, numbers or null,
    /// and its version, a text or null. It looks back from the last edit to the latest one at the coordinate, so that
    /// the tile that was put last is found at once.
    pub fn set_cache_fields(
        &mut self,
        coord: TileCoord,
        fetched: Cell,
        expires: Cell,
        etag: Cell,
    ) -> Result<(), OutOfMemory>
        requires layout { self.old.state.layout ≡ Cache }
        requires there { contains_key self.old.state.tiles (place_at coord) ≡ true }
        ensures ok { OnOk result
            (self.new ≡ with_dates self.old (place_at coord)
            (record { fetched = fetched; expires = expires; etag = etag })) }
        ensures err { OnErr result (self.new ≡ self.old) }
    {
        let alloc = *self.tiles.allocator();
        let dates = Dates {
            fetched,
            expires,
            etag,
        };
        let dates = TileDates::new(alloc, dates)?;
        push_dated(&mut self.tiles, coord, dates)?;
        Ok(())
    }

    /// Removes the tile at a coordinate, which counts as edited whether there was one or not.
    pub fn clear_tile(&mut self, coord: TileCoord) -> Result<(), OutOfMemory>
        ensures ok { OnOk result (self.new ≡ removed_tile self.old (place_at coord)) }
        ensures err { OnErr result (self.new ≡ self.old) }
    {
        self.tiles.push(StoredTile::mark(coord))?;
        Ok(())
    }

    /// Puts a text or null under a name. The algorithm stays, also under the name `hash_algorithm`.
    pub fn set_metadata(&mut self, name: TextVal, value: Cell) -> Result<(), OutOfMemory>
        requires { is_text value ≡ true }
        ensures ok { OnOk result (self.new ≡ with_name self.old name (text_of value)) }
        ensures err { OnErr result (self.new ≡ self.old) }
    {
        self.names.push(StoredName {
            name,
            value,
            standing: Standing::Put,
        })?;
        Ok(())
    }

    /// Removes the value of a name, which counts as edited whether there was one or not.
    pub fn clear_metadata(&mut self, name: &str) -> Result<(), OutOfMemory>
        ensures ok { OnOk result (self.new ≡ removed_name self.old name.now) }
        ensures err { OnErr result (self.new ≡ self.old) }
    {
        let alloc = *self.names.allocator();
        let name = TextVal::new(String::from_str(alloc, name)?);
        self.names.push(StoredName {
            name,
            value: Cell::Null,
            standing: Standing::Removed,
        })?;
        Ok(())
    }

    /// Puts all in order again.
    pub fn settle(self) -> Result<Loaded, OutOfMemory>
        ensures { IfOk result (λ l. l ≡ self) }
    {
        let Editing {
            layout,
            algorithm,
            patch_type,
            contents,
            order,
            tiles,
            names,
        } = self;
        let contents = ContentList::newest(contents, order)?;
        let tiles = TileList::newest(tiles)?;
        let names = NameList::newest(names)?;
        Ok(Loaded {
            layout,
            algorithm,
            patch_type,
            contents,
            tiles,
            names,
        })
    }
}
