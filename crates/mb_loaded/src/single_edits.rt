// Edits of a loaded set, one at a time.
ghost use Rattle.std.specs.Prelude.{◌≡◌, OnErr, OnOk, true};
ghost use Rattle.mb_loaded.specs.Common.{Cache, contains_key, is_text, place_at, text_of};
ghost use Rattle.mb_loaded.specs.Edits.{only_referenced, with_dates, with_name, with_null, with_tile, without_name, without_tile};

use crate::Loaded;
use crate::adding::{add_content, dates_for, id_for, null_content};
use base_values::{BlobVal, OutOfMemory, TextVal};
use mb_lists::{
    Content, ContentList, Dates, Standing, StoredName, StoredTile, TileList, mark_all, sort_named,
};
use mb_store::Cell;
use tile_ids::TileCoord;

impl Loaded {
    /// Puts bytes at a coordinate: in a normalised set under their digest by the set's algorithm, in a cache without
    /// times. It takes the time of a walk over what stands behind the place; for many edits there is `edit`.
    pub fn set_tile(&mut self, coord: TileCoord, bytes: BlobVal) -> Result<(), OutOfMemory>
        ensures ok { OnOk result (self.new ≡ with_tile self.old (place_at coord) bytes) }
        ensures err { OnErr result (self.new ≡ self.old) }
    {
        let alloc = *self.contents.items.allocator();
        let id = id_for(alloc, self.layout, self.algorithm, bytes.as_bytes())?;
        let dates = dates_for(alloc, self.layout)?;
        self.contents.order.reserve(1)?;
        self.tiles.items.reserve(1)?;
        let is_null = id.is_null();
        let content = Content {
            id,
            cell: Cell::Blob(bytes),
            standing: Standing::Put,
        };
        let contents = add_content(&mut self.contents.items, content)?;
        self.contents.list(is_null, contents);
        self.tiles.put(StoredTile {
            coord,
            contents,
            dates,
            standing: Standing::Put,
        });
        Ok(())
    }

    /// Puts null at a coordinate of a set without ids, in a cache without times. It takes the time of a walk over what
    /// stands behind the place; for many edits there is `edit`.
    pub fn set_null(&mut self, coord: TileCoord) -> Result<(), OutOfMemory>
        ensures ok { OnOk result (self.new ≡ with_null self.old (place_at coord)) }
        ensures err { OnErr result (self.new ≡ self.old) }
    {
        let alloc = *self.contents.items.allocator();
        let dates = dates_for(alloc, self.layout)?;
        self.tiles.items.reserve(1)?;
        let contents = add_content(&mut self.contents.items, null_content())?;
        self.tiles.put(StoredTile {
            coord,
            contents,
            dates,
            standing: Standing::Put,
        });
        Ok(())
    }

    /// Gives the tile at a coordinate of a cache other times: when it was fetched and when it expires, numbers or null,
    /// and its version, a text or null. It takes no memory.
    pub fn set_cache_fields(&mut self, coord: TileCoord, fetched: Cell, expires: Cell, etag: Cell)
        requires layout { self.old.state.layout ≡ Cache }
        requires there { contains_key self.old.state.tiles (place_at coord) ≡ true }
        ensures { self.new ≡ with_dates self.old (place_at coord)
            (record { fetched = fetched; expires = expires; etag = etag }) }
    {
        let dates = Dates {
            fetched,
            expires,
            etag,
        };
        self.tiles.redate(coord, dates);
    }

    /// Removes the tile at a coordinate, which then counts as edited. Where there is none nothing changes.
    pub fn clear_tile(&mut self, coord: TileCoord)
        ensures { self.new ≡ without_tile self.old (place_at coord) }
    {
        self.tiles.clear(coord);
    }

    /// Puts a text or null under a name. The algorithm stays, also under the name `hash_algorithm`.
    pub fn set_metadata(&mut self, name: TextVal, value: Cell) -> Result<(), OutOfMemory>
        requires { is_text value ≡ true }
        ensures ok { OnOk result (self.new ≡ with_name self.old name (text_of value)) }
        ensures err { OnErr result (self.new ≡ self.old) }
    {
        self.names.items.reserve(1)?;
        self.names.put(StoredName {
            name,
            value,
            standing: Standing::Put,
        });
        Ok(())
    }

    /// Removes the value of a name, which then counts as edited. Where there is none nothing changes.
    pub fn clear_metadata(&mut self, name: &str)
        ensures { self.new ≡ without_name self.old name.now }
    {
        self.names.clear(name);
    }

    /// Drops the contents of a normalised set that no tile has any more. Contents without an id stay.
    pub fn drop_unreferenced(&mut self)
        ensures { self.new ≡ only_referenced self.old }
    {
        let contents = &mut self.contents;
        let tiles = &mut self.tiles;
        let live = sort_named(&contents.items, &mut tiles.items);
        mark_all(&mut contents.items, &contents.order, &tiles.items[..live]);
        contents.live = ContentList::settle(&contents.items, &mut contents.order);
        tiles.live = TileList::settle(&mut tiles.items);
    }
}
