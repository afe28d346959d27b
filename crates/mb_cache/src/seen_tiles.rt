// What is known of the tiles of rows that were read: their entries, and whether a place stands twice.
ghost use Rattle.std.specs.Prelude.{◌≡◌, ◌++◌, ◌∷◌, [], false, true, IfErr, IfOk, List, None, OnOk};
ghost use Rattle.mb_cache.specs.Entries.{row_place};
ghost use Rattle.mb_cache.specs.Seen.{SeesTiles, spot_at};
ghost use Rattle.mb_cache.specs.Common.{bad_tile, Cache, Cell, cell_at, first_refused, place_at};

use crate::entries::Entry;
use base_values::OutOfMemory;
use mb_lists::{cell_at, coord_of};
use mb_store::{Cell, MbtError, MbtResult, Row};
use std::alloc::Global;
use std::collections::BTreeSet;
use tile_ids::{TileCoord, invert_y_value};

/// The entries of tiles, and the places where they stand, 12 bytes each: zoom, column, and row from the bottom.
#[derive(Drop)]
pub(crate) struct SeenTiles {
    pub entries: BTreeSet<Entry>,
    pub places: BTreeSet<(u8, u32, u32)>,
    // whether no place stands twice
    pub apart: bool,
}

// The three numbers of the place of a coordinate.
fn spot_of(coord: TileCoord) -> (u8, u32, u32)
    ensures { result ≡ spot_at (place_at coord) }
{
    let zoom = coord.z();
    (zoom, coord.x(), invert_y_value(zoom, coord.y()))
}

impl SeenTiles {
    /// No tiles.
    pub fn none(alloc: Global) -> SeenTiles
        ensures { SeesTiles [] result }
    {
        SeenTiles {
            entries: BTreeSet::new(alloc),
            places: BTreeSet::new(alloc),
            apart: true,
        }
    }

    // Adds the tile of a row at a place with an expiry.
    fn put(&mut self, coord: TileCoord, expires: &Cell) -> Result<(), OutOfMemory>
        ensures { (rows : List (List Cell)) → (row : List Cell) →
            row_place row ≡ place_at coord → cell_at 4 row ≡ expires.now →
            SeesTiles rows self.old → OnOk result (SeesTiles (rows ++ row ∷ []) self.new) }
    {
        let added = self.places.insert(spot_of(coord))?;
        self.apart &= added;
        self.entries.insert(Entry::at(coord, expires))?;
        Ok(())
    }

    // Adds the tile of a row.
    fn add(&mut self, row: &Row) -> Result<(), OutOfMemory>
        requires { bad_tile Cache [] row.now ≡ None }
        ensures { (rows : List (List Cell)) → SeesTiles rows self.old →
            OnOk result (SeesTiles (rows ++ row.now ∷ []) self.new) }
    {
        let null = Cell::Null;
        match coord_of(row) {
            Some(coord) => self.put(coord, cell_at(row, 4, &null)),
            None => Ok(()),
        }
    }

    /// Adds the tiles of more rows, none of them bad.
    pub fn add_all(&mut self, rows: &[Row]) -> Result<(), OutOfMemory>
        requires { first_refused (bad_tile Cache []) rows.now ≡ None }
        ensures { (before : List (List Cell)) → SeesTiles before self.old →
            OnOk result (SeesTiles (before ++ rows.now) self.new) }
    {
        for row in rows {
            self.add(row)?;
        }
        Ok(())
    }

    /// The entries of all tiles, unless a place stands twice.
    pub fn into_entries(self) -> MbtResult<BTreeSet<Entry>>
        ensures apart { IfOk result (λ es.
            (self.apart ≡ true) × (es.keys ≡ self.entries.keys)) }
        ensures twice { IfErr result (λ e.
            (self.apart ≡ false) × (e ≡ MbtError.NoUniquenessConstraint)) }
    {
        if self.apart {
            Ok(self.entries)
        } else {
            Err(MbtError::NoUniquenessConstraint)
        }
    }
}
