// Tiles, names and contents that come to their place in the lists, or leave it.
ghost use Rattle.std.specs.Prelude.{◌≡◌, ◌<◌, ◌++◌, ◌∷◌, [], false, length, vec_capacity, vec_len};
ghost use Rattle.mb_lists.specs.Common.{cell_cmp, nat_cmp, place_cmp, slice_cmp};
ghost use Rattle.mb_lists.specs.Clearing.{listed};
ghost use Rattle.mb_lists.specs.Clearing.{Clears, name_mark, tile_mark};
ghost use Rattle.mb_lists.specs.Entries.{AreContentsInOrder, AreInOrder, AreNamesInOrder, id_at, is_content_gone, is_gone, is_name_gone, name_of, newest_ids, newest_names, newest_tiles, place_at, place_of};
ghost use Rattle.mb_lists.specs.Keyed.{StandsAs, live_at};

use crate::clearing::{id_position, mark_name, mark_tile, name_position, put_at, tile_position};
use crate::content_list::ContentList;
use crate::entries::{StoredName, StoredTile};
use crate::name_list::NameList;
use crate::tile_list::TileList;
use tile_ids::TileCoord;

impl TileList {
    /// Puts a tile at its place.
    pub fn put(&mut self, tile: StoredTile)
        requires order { AreInOrder self.old.live self.old.items.items }
        requires live { is_gone tile ≡ false }
        requires room { vec_len self.old.items < vec_capacity self.old.items }
        ensures order { AreInOrder self.new.live self.new.items.items }
        ensures same { StandsAs place_cmp place_of
            (newest_tiles (self.old.items.items ++ tile ∷ [])) self.new.items.items }
    {
        match self.search(tile.coord) {
            Ok(at) => self.items[at] = tile,
            Err(at) => {
                let mark = tile_position(&self.items[self.live..], tile.coord);
                put_at(&mut self.items, self.live, mark, at, tile);
                self.live += 1;
            }
        }
    }

    /// Makes the tile at a coordinate a mark, if there is one.
    pub fn clear(&mut self, coord: TileCoord)
        requires { AreInOrder self.old.live self.old.items.items }
        ensures order { AreInOrder self.new.live self.new.items.items }
        ensures cleared { Clears place_cmp place_of
            (live_at place_cmp place_of is_gone (place_at coord) self.old.items.items)
            (tile_mark coord) self.old.items.items self.new.items.items }
    {
        if let Ok(at) = self.search(coord) {
            mark_tile(&mut self.items, at, coord);
            self.live -= 1;
        }
    }
}

impl NameList {
    /// Puts an entry under its name.
    pub fn put(&mut self, entry: StoredName)
        requires order { AreNamesInOrder self.old.live self.old.items.items }
        requires live { is_name_gone entry ≡ false }
        requires room { vec_len self.old.items < vec_capacity self.old.items }
        ensures order { AreNamesInOrder self.new.live self.new.items.items }
        ensures same { StandsAs (slice_cmp nat_cmp) name_of
            (newest_names (self.old.items.items ++ entry ∷ [])) self.new.items.items }
    {
        match self.search(entry.name.as_str()) {
            Ok(at) => self.items[at] = entry,
            Err(at) => {
                let mark = name_position(&self.items[self.live..], entry.name.as_str());
                put_at(&mut self.items, self.live, mark, at, entry);
                self.live += 1;
            }
        }
    }

    /// Makes the entry of a name a mark, if there is one.
    pub fn clear(&mut self, name: &str)
        requires { AreNamesInOrder self.old.live self.old.items.items }
        ensures order { AreNamesInOrder self.new.live self.new.items.items }
        ensures cleared { Clears (slice_cmp nat_cmp) name_of
            (live_at (slice_cmp nat_cmp) name_of is_name_gone name.now self.old.items.items)
            (name_mark name.now) self.old.items.items self.new.items.items }
    {
        if let Ok(at) = self.search(name) {
            mark_name(&mut self.items, at);
            self.live -= 1;
        }
    }
}

impl ContentList {
    // Lists contents at an index under their id.
    fn put(&mut self, index: usize)
        requires order { AreContentsInOrder self.old.items.items self.old.live
            self.old.order.items }
        requires within { index < length self.old.items.items }
        requires live { is_content_gone self.old.items.items index ≡ false }
        requires room { vec_len self.old.order < vec_capacity self.old.order }
        ensures items { self.new.items ≡ self.old.items }
        ensures order { AreContentsInOrder self.old.items.items self.new.live self.new.order.items }
        ensures same { StandsAs cell_cmp (id_at self.old.items.items)
            (newest_ids self.old.items.items (self.old.order.items ++ index ∷ []))
            self.new.order.items }
    {
        match self.search(&self.items[index].id) {
            Ok(at) => self.order[at] = index,
            Err(at) => {
                let mark = id_position(&self.items, &self.order[self.live..], index);
                put_at(&mut self.order, self.live, mark, at, index);
                self.live += 1;
            }
        }
    }

    /// Lists contents at an index under their id, unless it is null.
    pub fn list(&mut self, is_null: bool, index: usize)
        requires order { AreContentsInOrder self.old.items.items self.old.live
            self.old.order.items }
        requires within { index < length self.old.items.items }
        requires live { is_content_gone self.old.items.items index ≡ false }
        requires room { vec_len self.old.order < vec_capacity self.old.order }
        ensures items { self.new.items ≡ self.old.items }
        ensures order { AreContentsInOrder self.old.items.items self.new.live self.new.order.items }
        ensures same { StandsAs cell_cmp (id_at self.old.items.items)
            (newest_ids self.old.items.items (self.old.order.items ++ listed is_null index))
            self.new.order.items }
    {
        if is_null {
            return;
        }
        self.put(index);
    }
}
