// Putting tiles into a cache.
ghost use Rattle.std.specs.Prelude.{◌≡◌, ◌&&◌, List, not, None, Ok, false, true, IfErr, IfOk, OnErr, OnOk, is_some, length, option_copied, option_map};
ghost use Rattle.mb_cache.specs.Common.{Answers, AreOfTables, cell_at, Commits, contents_of, FaultsCounted, has_key, is_free, is_table, IsStrictlySortedBy, Keeps, place_at, TableDesc, tile_key};
ghost use Rattle.mb_cache.specs.Common.{TileCache};
ghost use Rattle.mb_cache.specs.Entries.{entry_at, entry_of, has_entry};
ghost use Rattle.mb_cache.specs.EntryOrder.{entry_cmp};
ghost use Rattle.mb_cache.specs.declared.entries.Entry.{Entry};
ghost use Rattle.mb_cache.specs.Finding.{coord_in};
ghost use Rattle.mb_cache.specs.Setting.{ReplacesEntry, SetsEntry, SetsTile, UpdatesEntry, UpdatesMeta, is_replaced, meta_row, put_row, set_answer, taken_back};
ghost use Rattle.mb_cache.specs.State.{Agrees, row_at};
ghost use Rattle.mb_loaded.specs.Editable.{IsOnBoard};

use crate::entries::Entry;
use crate::finding::{bad_coordinate, coord_in, find_row, key_at};
use crate::meta_rows::{contents_of, expiry_cell, meta_row};
use crate::{CacheEntryMeta, CacheState};
use base_values::{BlobVal, OutOfMemory};
use mb_lists::cell_at;
use mb_store::{Cell, Changes, MbtError, MbtResult, Row, TableName, TileStore};
use std::alloc::Global;
use std::collections::BTreeSet;
use tile_ids::TileCoord;

// The change that puts the row of a coordinate.
fn change_of(alloc: Global, coord: TileCoord, row: Row) -> Result<Changes, OutOfMemory>
    requires keyed { has_key TileCache (tile_key (place_at coord)) row ≡ true }
    requires wide { length row ≡ 7 }
    ensures change { IfOk result (λ changes. changes ≡ put_row (place_at coord) row) }
    ensures tables { IfOk result (λ changes. (ds : List TableDesc) → is_table ds TileCache ≡ true →
        AreOfTables ds changes) }
{
    let mut changes = Changes::new(alloc);
    changes.put(TableName::TileCache, key_at(coord), row)?;
    Ok(changes)
}

// The entry of the row that was found at a coordinate, if one was.
fn entry_of_found(coord: TileCoord, found: Option<&Row>) -> Option<Entry>
    ensures { result ≡ option_map (λ row. entry_at (place_at coord) (cell_at 4 row))
        (option_copied found.entry) }
{
    let null = Cell::Null;
    match found {
        Some(row) => Some(Entry::at(coord, cell_at(row, 4, &null))),
        None => None,
    }
}

// Removes the old entry of a place, where it isn't also the new one.
fn replace(entries: &mut BTreeSet<Entry>, old: Option<Entry>, new: Entry)
    ensures members { (e : Entry) →
        has_entry entries.new.keys e ≡
        (has_entry entries.old.keys e && not (is_replaced old new e)) }
    ensures ordered { IsStrictlySortedBy entry_cmp entries.old.keys →
        IsStrictlySortedBy entry_cmp entries.new.keys }
{
    if let Some(old) = old {
        if old != new {
            entries.remove(&old);
        }
    }
}

// Removes an entry that was added.
fn take_back(entries: &mut BTreeSet<Entry>, added: bool, entry: Entry)
    ensures { entries.new.keys ≡ taken_back added entry entries.old.keys }
{
    if added {
        entries.remove(&entry);
    }
}

// A row is put in one commit, and its entry takes the place of the old one. The new entry is added before the commit,
// since that may find no memory, and taken back where the commit is refused.
fn put<S: TileStore>(
    alloc: Global,
    store: &mut S,
    entries: &mut BTreeSet<Entry>,
    coord: TileCoord,
    old: Option<Entry>,
    meta: CacheEntryMeta<'_>,
    contents: Cell,
) -> MbtResult<()>
    requires on_board { IsOnBoard (place_at coord) }
    requires agrees { S.tells store.old ≡ true → Agrees (S.told store.old) entries.old.keys }
    requires found { S.tells store.old ≡ true →
        old ≡ option_map entry_of (row_at (S.told store.old) (place_at coord)) }
    requires contents { S.tells store.old ≡ true → is_some (contents_of contents) ≡ true }
    ensures put { S.tells store.old ≡ true →
        OnOk result (Commits (put_row (place_at coord)
        (meta_row (place_at coord) meta.entry contents)) (S.told store.old) (S.told store.new)) }
    ensures agrees { S.tells store.old ≡ true → Agrees (S.told store.new) entries.new.keys }
    ensures own { OnOk result (ReplacesEntry (place_at coord) meta.entry.expires old
        entries.old.keys entries.new.keys) }
    ensures err { OnErr result (S.told store.new ≡ S.told store.old) }
    ensures same { OnErr result (entries.new.keys ≡ entries.old.keys) }
    ensures free { IfErr result (λ e. is_free e ≡ true) }
    ensures kept { Keeps S.tells S.faults S.steady store.old store.new }
    ensures fault { FaultsCounted S.faults store.old store.new result MbtError.StoreFault }
{
    let new = Entry::at(coord, &expiry_cell(meta));
    let row = meta_row(alloc, coord, meta, contents)?;
    let changes = change_of(alloc, coord, row)?;
    let added = entries.insert(new)?;
    match store.commit(alloc, &changes) {
        Ok(()) => {
            replace(entries, old, new);
            Ok(())
        }
        Err(error) => {
            take_back(entries, added, new);
            Err(MbtError::from(error))
        }
    }
}

impl CacheState {
    /// Keeps a tile at a zoom, a column from the left and a row from the top: its bytes, and what is kept beside them,
    /// in place of what the cache had there. It is one commit of one row, after one row is read for the old expiry.
    /// `InvalidTileIndex` comes exactly where the three are no coordinate of zoom 0 to 30, with these numbers. Refused,
    /// nothing is changed. Memory gains the entry of the new expiry and loses that of the row that was found, also over
    /// a store that tells nothing.
    pub fn set_cached<S: TileStore>(
        &mut self,
        store: &mut S,
        z: u8,
        x: u32,
        y: u32,
        bytes: &[u8],
        meta: CacheEntryMeta<'_>,
    ) -> MbtResult<()>
        requires { S.tells store.old ≡ true → Agrees (S.told store.old) self.old }
        ensures set { S.tells store.old ≡ true →
            OnOk result (SetsTile (coord_in z x y) meta.entry bytes.now (S.told store.old)
            (S.told store.new)) }
        ensures agrees { S.tells store.old ≡ true → Agrees (S.told store.new) self.new }
        ensures own { OnOk result (SetsEntry (coord_in z x y) meta.entry self.old self.new) }
        ensures answer { Answers (set_answer z x y) result }
        ensures err { OnErr result (S.told store.new ≡ S.told store.old) }
        ensures same { OnErr result (self.new ≡ self.old) }
        ensures kept { Keeps S.tells S.faults S.steady store.old store.new }
        ensures fault { FaultsCounted S.faults store.old store.new result MbtError.StoreFault }
    {
        let Some(coord) = coord_in(z, x, y) else {
            return Err(bad_coordinate(z, x, y));
        };
        let contents = Cell::Blob(BlobVal::new(Vec::from_slice(self.alloc, bytes)?));
        let found = find_row(self.alloc, store, coord)?;
        let old = entry_of_found(coord, found.as_ref());
        put(
            self.alloc,
            store,
            &mut self.entries,
            coord,
            old,
            meta,
            contents,
        )
    }

    /// Keeps other times and another tag of the tile at a zoom, a column from the left and a row from the top, and
    /// leaves its contents, which may be null. Whether there is such a tile; where there is none, and where the three
    /// are no coordinate of zoom 0 to 30, nothing is changed. Refused, nothing is changed.
    pub fn update_cached_meta<S: TileStore>(
        &mut self,
        store: &mut S,
        z: u8,
        x: u32,
        y: u32,
        meta: CacheEntryMeta<'_>,
    ) -> MbtResult<bool>
        requires { S.tells store.old ≡ true → Agrees (S.told store.old) self.old }
        ensures updated { S.tells store.old ≡ true →
            IfOk result (λ is. UpdatesMeta (coord_in z x y) meta.entry is (S.told store.old)
            (S.told store.new)) }
        ensures agrees { S.tells store.old ≡ true → Agrees (S.told store.new) self.new }
        ensures own { IfOk result
            (λ is. UpdatesEntry (coord_in z x y) meta.entry is self.old self.new) }
        ensures nowhere { coord_in z x y ≡ None → result ≡ Ok false }
        ensures free { IfErr result (λ e. is_free e ≡ true) }
        ensures err { OnErr result (S.told store.new ≡ S.told store.old) }
        ensures same { OnErr result (self.new ≡ self.old) }
        ensures kept { Keeps S.tells S.faults S.steady store.old store.new }
        ensures fault { FaultsCounted S.faults store.old store.new result MbtError.StoreFault }
    {
        let Some(coord) = coord_in(z, x, y) else {
            return Ok(false);
        };
        let Some(found) = find_row(self.alloc, store, coord)? else {
            return Ok(false);
        };
        let old = entry_of_found(coord, Some(&found));
        let contents = contents_of(found);
        put(
            self.alloc,
            store,
            &mut self.entries,
            coord,
            old,
            meta,
            contents,
        )?;
        Ok(true)
    }
}
