// Streams of the tiles of a set in the order of their rows.
ghost use Rattle.std.specs.Prelude.{◌≡◌, IfOk, Ok, true};
ghost use Rattle.mb_access.specs.Common.{IsBegun, len, ReadsOnly, RestsIfErr, sem};
ghost use Rattle.mb_access.specs.Refused.{IsUnfailing, LeftByStart};
ghost use Rattle.mb_access.specs.StreamSteps.{AreAllLeft, left_at_most, set_of};
ghost use Rattle.mb_access.specs.Streams.{coords_loaded, tiles_loaded};

use crate::{Mbtiles, StreamState};
use base_values::BlobVal;
use mb_store::{MbtResult, TileStore};
use std::alloc::Global;
use tile_ids::TileCoord;

/// The coordinates of a set's tiles, null ones included, in the order of their rows. An error ends them: running
/// out of memory, or `StoreFault` where the store's count of faults rose.
pub struct Coords<'s, S: TileStore, T = StreamState> {
    pub(crate) store: &'s mut S,
    pub(crate) state: T,
}

// What is let go leaves the store as it is.
impl<S: TileStore, T: Drop> Drop for Coords<'_, S, T> {
    fn drop(self)
        ensures same { self.exit.0.now ≡ self.entry.store.now }
    {
        let Coords { store: _, state: _ } = self;
    }
}

/// The tiles of a set, each its coordinate with its bytes or null, in the order of their rows. An error ends them: want
/// of memory, or `StoreFault` where the store's count of faults rose.
pub struct Tiles<'s, S: TileStore, T = StreamState> {
    pub(crate) store: &'s mut S,
    pub(crate) state: T,
}

// What is let go leaves the store as it is.
impl<S: TileStore, T: Drop> Drop for Tiles<'_, S, T> {
    fn drop(self)
        ensures same { self.exit.0.now ≡ self.entry.store.now }
    {
        let Tiles { store: _, state: _ } = self;
    }
}

impl<'s, S: TileStore> Coords<'s, S> {
    /// The stream with this state over this store, from which the state was loaded.
    pub fn over(store: &'s mut S, state: StreamState) -> Coords<'s, S>
        ensures same_reference { result.store.ghost_name ≡ store.entry.ghost_name }
        ensures same { result.store.now ≡ store.old }
        ensures state { result.state ≡ state }
    {
        Coords { store, state }
    }
}

impl<'s, S: TileStore> Tiles<'s, S> {
    /// The stream with this state over this store, from which the state was loaded.
    pub fn over(store: &'s mut S, state: StreamState) -> Tiles<'s, S>
        ensures same_reference { result.store.ghost_name ≡ store.entry.ghost_name }
        ensures same { result.store.now ≡ store.old }
        ensures state { result.state ≡ state }
    {
        Tiles { store, state }
    }
}

impl<'s, S: TileStore> Iterator for Coords<'s, S> {
    type Item = MbtResult<TileCoord>;

    ghost use Rattle.mb_access.specs.Common.{at_most};
    ghost use Rattle.mb_access.specs.StreamSteps.{left_at_most};
    ghost use Rattle.mb_access.specs.Streams.{StreamsCoord};

    ghost next_gives = { λ s item t. StreamsCoord S.told S.tells S.faults S.steady s item t };

    ghost remaining = { λ s. at_most (left_at_most s.state) };

    fn next(&mut self) -> Option<MbtResult<TileCoord>> {
        self.state.next_coord(self.store)
    }
}

impl<'s, S: TileStore> Iterator for Tiles<'s, S> {
    type Item = MbtResult<(TileCoord, Option<BlobVal>)>;

    ghost use Rattle.mb_access.specs.Common.{at_most};
    ghost use Rattle.mb_access.specs.StreamSteps.{left_at_most};
    ghost use Rattle.mb_access.specs.Streams.{StreamsTile};

    ghost next_gives = { λ s item t. StreamsTile S.told S.tells S.faults S.steady s item t };

    ghost remaining = { λ s. at_most (left_at_most s.state) };

    fn next(&mut self) -> Option<MbtResult<(TileCoord, Option<BlobVal>)>> {
        self.state.next_tile(self.store)
    }
}

impl Mbtiles {
    /// The coordinates of a set's tiles in the order of their rows: `StreamState::start`, and then `Coords::over`.
    ///
    /// An error is one that `start` answers: a refusal of `load`, running out of memory, or a fault, which doesn't come
    /// over a store whose calls don't fail. After an error the store holds and tells what it did, and its count of
    /// faults didn't fall, and rose where `StoreFault` came (`rests`). Whoever needs this for a proof calls `start`.
    pub fn stream_coords<'s, S: TileStore>(
        &self,
        alloc: Global,
        store: &'s mut S,
    ) -> MbtResult<Coords<'s, S>>
        ensures* rests { sem 𝓛 (RestsIfErr S.row store.entry (λ c. c.store.ghost_name) result
            (LeftByStart S.told S.tells S.faults S.steady store.old result)) }
        ensures answer { IsBegun Ok (S.tells store.old) (S.told store.old) (coords_loaded result) }
        ensures unfailing { IsUnfailing (S.steady store.old) (S.faults store.old) result }
        ensures same_reference { IfOk result (λ c. c.store.ghost_name ≡ store.entry.ghost_name) }
        ensures items { S.tells store.old ≡ true
            → IfOk result (λ c. AreAllLeft (S.told store.old) (S.told c.store.now) c.state) }
        ensures most { IfOk result (λ c. left_at_most c.state ≡ len (set_of c.state).tiles) }
        ensures kept { IfOk result
            (λ c. ReadsOnly S.told S.tells S.faults S.steady store.old c.store.now) }
        ensures still { IfOk result (λ c. S.faults c.store.now ≡ S.faults store.old) }
    {
        match StreamState::start(alloc, store) {
            Ok(state) => Ok(Coords { store, state }),
            Err(error) => Err(error),
        }
    }

    /// The tiles of a set in the order of their rows: `StreamState::start`, and then `Tiles::over`.
    ///
    /// An error is one that `start` answers: a refusal of `load`, running out of memory, or a fault, which doesn't come
    /// over a store whose calls don't fail. After an error the store holds and tells what it did, and its count of
    /// faults didn't fall, and rose where `StoreFault` came (`rests`). Whoever needs this for a proof calls `start`.
    pub fn stream_tiles<'s, S: TileStore>(
        &self,
        alloc: Global,
        store: &'s mut S,
    ) -> MbtResult<Tiles<'s, S>>
        ensures* rests { sem 𝓛 (RestsIfErr S.row store.entry (λ c. c.store.ghost_name) result
            (LeftByStart S.told S.tells S.faults S.steady store.old result)) }
        ensures answer { IsBegun Ok (S.tells store.old) (S.told store.old) (tiles_loaded result) }
        ensures unfailing { IsUnfailing (S.steady store.old) (S.faults store.old) result }
        ensures same_reference { IfOk result (λ c. c.store.ghost_name ≡ store.entry.ghost_name) }
        ensures items { S.tells store.old ≡ true
            → IfOk result (λ c. AreAllLeft (S.told store.old) (S.told c.store.now) c.state) }
        ensures most { IfOk result (λ c. left_at_most c.state ≡ len (set_of c.state).tiles) }
        ensures kept { IfOk result
            (λ c. ReadsOnly S.told S.tells S.faults S.steady store.old c.store.now) }
        ensures still { IfOk result (λ c. S.faults c.store.now ≡ S.faults store.old) }
    {
        match StreamState::start(alloc, store) {
            Ok(state) => Ok(Tiles { store, state }),
            Err(error) => Err(error),
        }
    }
}
