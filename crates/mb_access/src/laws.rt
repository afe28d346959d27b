//! Laws of streams: which tiles stand in the rows of a set, and what comes of a stream, call after call.
ghost use Rattle.std.specs.Prelude.{◌≡◌, ◌++◌, List, None, Ok, filter_map, is_ok, length, map, true};
ghost use Rattle.mb_access.specs.Common.{find, get, len, pairs_of, Place, place_cmp, State, state_of, Tables, Yields, YieldsThen};
ghost use Rattle.std.specs.List.{list_all};
ghost use Rattle.mb_access.specs.StreamRuns.{CoordItem, TileItem, place_in, tile_in};
ghost use Rattle.mb_access.specs.StreamSteps.{Tile, left_of};
ghost use Rattle.mb_access.specs.Streams.{StreamsCoord, StreamsTile};
ghost use Rattle.mb_access.specs.declared.stream_state.StreamState.{StreamState};
ghost use Rattle.mb_access.specs.declared.streams.Coords.{Coords};
ghost use Rattle.mb_access.specs.declared.streams.Tiles.{Tiles};
ghost use Rattle.mb_lists.specs.Keyed.{are_distinct};

use mb_store::TileStore;

/// The tiles of tables that load, in the order of their rows, are the tiles of the set: no place stands there twice,
/// what stands at a place is what the set has there, and there are as many as in the set.
pub fn rows_have_each_tile_once()
    ensures once { (t : Tables) (s : State) → state_of t ≡ Ok s
        → are_distinct place_cmp (map (λ (e : Tile). e.0) (pairs_of s.layout t)) ≡ true }
    ensures all { (t : Tables) (s : State) → state_of t ≡ Ok s
        → (p : Place) → find place_cmp p (pairs_of s.layout t) ≡ get s.tiles p }
    ensures count { (t : Tables) (s : State) → state_of t ≡ Ok s
        → length (pairs_of s.layout t) ≡ len s.tiles }
{}

/// What a stream of a store that tells gives, call after call, is a front of what was to come, in its order; it is all
/// of that where the end comes without an error before.
pub fn streams_give_all_in_order<S: TileStore>()
    ensures coords { (s t : Coords S StreamState) (xs : List CoordItem)
        → S.tells s.store.now ≡ true → Yields (StreamsCoord S.told S.tells S.faults S.steady) s xs t
        → (more : List Place) × (map (λ (e : Tile). e.0) (left_of (S.told s.store.now) s.state)
        ≡ filter_map place_in xs ++ more) }
    ensures all_coords { (s t : Coords S StreamState) (xs : List CoordItem)
        → S.tells s.store.now ≡ true
        → YieldsThen (StreamsCoord S.told S.tells S.faults S.steady) s xs None t
        → list_all is_ok xs ≡ true
        → map (λ (e : Tile). e.0) (left_of (S.told s.store.now) s.state) ≡ filter_map place_in xs }
    ensures tiles { (s t : Tiles S StreamState) (xs : List TileItem)
        → S.tells s.store.now ≡ true → Yields (StreamsTile S.told S.tells S.faults S.steady) s xs t
        → (more : List Tile) × (left_of (S.told s.store.now) s.state
        ≡ filter_map tile_in xs ++ more) }
    ensures all_tiles { (s t : Tiles S StreamState) (xs : List TileItem)
        → S.tells s.store.now ≡ true
        → YieldsThen (StreamsTile S.told S.tells S.faults S.steady) s xs None t
        → list_all is_ok xs ≡ true
        → left_of (S.told s.store.now) s.state ≡ filter_map tile_in xs }
{}
