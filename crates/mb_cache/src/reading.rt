// What a row of a cache says of its tile, and reads of a cache.
ghost use Rattle.std.specs.Prelude.{◌≡◌, codes, length, option_and_then};
ghost use Rattle.mb_cache.specs.Reading.{IsRead, blob_in, bytes_of, cached_of, moment_in, text_in};
ghost use Rattle.mb_cache.specs.Common.{cell_at, FaultsCounted, IsBegun, metadata_answer, ReadsOnly};

use crate::finding::{coord_in, find_row};
use crate::{CacheState, CachedTile, Metadata, UnixSeconds};
use base_values::{BlobVal, TextVal};
use mb_lists::cell_at;
use mb_store::{Cell, MbtError, MbtResult, Row, TileStore};

// The moment in a cell of a row. None where it is no number.
fn moment_at(row: &Row, index: usize) -> Option<UnixSeconds>
    ensures { result ≡ moment_in (cell_at index row.now) }
{
    let null = Cell::Null;
    match cell_at(row, index, &null) {
        Cell::Int(seconds) => Some(UnixSeconds(*seconds)),
        _ => None,
    }
}

// The bytes of a cell. None where it has none.
fn blob_of(cell: Option<Cell>) -> Option<BlobVal>
    ensures { result ≡ option_and_then blob_in cell }
{
    match cell {
        Some(Cell::Blob(bytes)) => Some(bytes),
        _ => None,
    }
}

// The text of a cell. None where it has none.
fn text_of(cell: Option<Cell>) -> Option<TextVal>
    ensures { result ≡ option_and_then text_in cell }
{
    match cell {
        Some(Cell::Text(text)) => Some(text),
        _ => None,
    }
}

// The bytes of the tile of a row. None where its contents are null.
fn bytes_of(row: Row) -> Option<BlobVal>
    requires { length row ≡ 7 }
    ensures { result ≡ bytes_of row }
{
    let mut cells = row.into_cells();
    blob_of(cells.pop())
}

// The tile of a row. None where its contents are null.
fn cached_of(row: Row) -> Option<CachedTile>
    requires { length row ≡ 7 }
    ensures { result ≡ cached_of row }
{
    let fetched = moment_at(&row, 3);
    let expires = moment_at(&row, 4);
    let mut cells = row.into_cells();
    let tile_data = blob_of(cells.pop())?;
    let etag = text_of(cells.pop());
    Some(CachedTile {
        tile_data,
        fetched,
        expires,
        etag,
    })
}

impl CacheState {
    /// The tile at a zoom, a column from the left and a row from the top, with what is kept beside its bytes: one row
    /// of the store. None where the cache has no tile there or null, and where the three are no coordinate of zoom 0 to
    /// 30, which asks the store nothing. A tile of no bytes is an answer. An expiry isn't looked at.
    pub fn get_cached<S: TileStore>(
        &self,
        store: &mut S,
        z: u8,
        x: u32,
        y: u32,
    ) -> MbtResult<Option<CachedTile>>
        ensures answer { IsRead cached_of z x y (S.tells store.old) (S.told store.old) result }
        ensures kept { ReadsOnly S.told S.tells S.faults S.steady store.old store.new }
        ensures fault { FaultsCounted S.faults store.old store.new result MbtError.StoreFault }
    {
        let Some(coord) = coord_in(z, x, y) else {
            return Ok(None);
        };
        match find_row(self.alloc, store, coord)? {
            Some(row) => Ok(cached_of(row)),
            None => Ok(None),
        }
    }

    /// The bytes of the tile that `get_cached` answers.
    pub fn get_tile<S: TileStore>(
        &self,
        store: &mut S,
        z: u8,
        x: u32,
        y: u32,
    ) -> MbtResult<Option<BlobVal>>
        ensures answer { IsRead bytes_of z x y (S.tells store.old) (S.told store.old) result }
        ensures kept { ReadsOnly S.told S.tells S.faults S.steady store.old store.new }
        ensures fault { FaultsCounted S.faults store.old store.new result MbtError.StoreFault }
    {
        let Some(coord) = coord_in(z, x, y) else {
            return Ok(None);
        };
        match find_row(self.alloc, store, coord)? {
            Some(row) => Ok(bytes_of(row)),
            None => Ok(None),
        }
    }

    /// What the set says of itself, as a set without a file's name says it: its `id` is `unknown`. It loads the set,
    /// and answers the refusals of loading.
    pub fn get_metadata<S: TileStore>(&self, store: &mut S) -> MbtResult<Metadata>
        ensures answer { IsBegun (metadata_answer (codes "unknown")) (S.tells store.old)
            (S.told store.old) result }
        ensures kept { ReadsOnly S.told S.tells S.faults S.steady store.old store.new }
        ensures fault { FaultsCounted S.faults store.old store.new result MbtError.StoreFault }
    {
        mb_metadata::get_metadata(self.alloc, store, "unknown")
    }
}
