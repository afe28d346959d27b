// What is known of the rows of a cache that were read so far, page by page.
ghost use Rattle.std.specs.Prelude.{◌≡◌, ◌++◌, [], IfOk, List, None, OnOk};
ghost use Rattle.mb_cache.specs.Seen.{AreEntries, SeesRows, row_refusal, tiles_refused};
ghost use Rattle.mb_cache.specs.Common.{Cache, Cell, Tests, tile_bad, tile_kind_wrong};
ghost use Rattle.mb_lists.specs.FromRows.{AreIndexed};

use crate::entries::Entry;
use crate::names::test_names;
use crate::seen_tiles::SeenTiles;
use base_values::OutOfMemory;
use mb_constraints::test_tiles;
use mb_lists::{ContentList, have_tile_kinds};
use mb_store::{MbtError, MbtResult, MbtType, Row};
use std::alloc::Global;
use std::collections::BTreeSet;

/// What rows come to whose cells are of their kinds: the refusal of the first bad one, or the tiles of all.
#[derive(Drop)]
pub(crate) struct SeenRows {
    pub tiles: SeenTiles,
    pub bad: Option<MbtError>,
}

// No contents: a cache has none apart from its rows.
fn no_contents(alloc: Global) -> ContentList
    ensures indexed { AreIndexed result.items.items result.live result.order.items }
    ensures none { result.items.items ≡ [] }
{
    ContentList {
        items: Vec::new(alloc),
        order: Vec::new(alloc),
        live: 0,
    }
}

// The refusal of the first bad row, if there is one.
fn first_bad(alloc: Global, rows: &[Row]) -> Result<Option<MbtError>, OutOfMemory>
    ensures { IfOk result (λ bad. bad ≡ tile_bad Cache [] rows.now) }
{
    let none = no_contents(alloc);
    match test_tiles(alloc, MbtType::Cache, &none, rows) {
        Ok(()) => Ok(None),
        Err(MbtError::OutOfMemory) => Err(OutOfMemory),
        Err(bad) => Ok(Some(bad)),
    }
}

impl SeenRows {
    /// No rows.
    pub fn none(alloc: Global) -> SeenRows
        ensures { SeesRows [] result }
    {
        SeenRows {
            tiles: SeenTiles::none(alloc),
            bad: None,
        }
    }

    // Takes more rows, whose cells are of their kinds. Behind a bad one none counts.
    fn take(&mut self, alloc: Global, page: &[Row]) -> Result<(), OutOfMemory>
        requires { tile_kind_wrong Cache page.now ≡ None }
        ensures { (rows : List (List Cell)) → SeesRows rows self.old →
            OnOk result (SeesRows (rows ++ page.now) self.new) }
    {
        if self.bad.is_some() {
            return Ok(());
        }
        let found = first_bad(alloc, page)?;
        match found {
            Some(bad) => {
                self.bad = Some(bad);
                Ok(())
            }
            None => self.tiles.add_all(page),
        }
    }

    /// Takes the next rows, or refuses a cell that isn't of its kind.
    pub fn see(&mut self, alloc: Global, page: &[Row]) -> MbtResult<()>
        ensures tests { Tests (tile_kind_wrong Cache page.now) result }
        ensures seen { (rows : List (List Cell)) → SeesRows rows self.old →
            OnOk result (SeesRows (rows ++ page.now) self.new) }
    {
        if !have_tile_kinds(MbtType::Cache, page) {
            return Err(MbtError::InvalidDataFormat);
        }
        self.take(alloc, page)?;
        Ok(())
    }

    // The entries of all tiles, or the refusal of a bad row, and then that of a place that stands twice.
    fn into_entries(self) -> MbtResult<BTreeSet<Entry>>
        ensures tests { (rows : List (List Cell)) → SeesRows rows self →
            Tests (tiles_refused rows) result }
        ensures entries { (rows : List (List Cell)) → SeesRows rows self →
            IfOk result (λ es. AreEntries rows es.keys) }
    {
        let SeenRows { tiles, bad } = self;
        match bad {
            Some(bad) => Err(bad),
            None => tiles.into_entries(),
        }
    }

    /// The entries of all rows, or the first refusal of the tests of loading over these and over the rows of metadata.
    pub fn settle(self, alloc: Global, metadata: Vec<Row>) -> MbtResult<BTreeSet<Entry>>
        ensures tests { (rows : List (List Cell)) → SeesRows rows self →
            Tests (row_refusal metadata.items rows) result }
        ensures entries { (rows : List (List Cell)) → SeesRows rows self →
            IfOk result (λ es. AreEntries rows es.keys) }
    {
        test_names(alloc, metadata)?;
        self.into_entries()
    }
}
