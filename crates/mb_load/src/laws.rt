//! Laws of loading, and of commits of a loaded set's changes.
ghost use Rattle.std.specs.Prelude.{◌≡◌, ℕ, All, List, Ok, Option, None, Some, false, true};
ghost use Rattle.mb_load.specs.Common.{AreChangesOf, AreOfTables, AreTimes, Cache, Cell, Change, Commits, contains_key, Dates, fresh, get, HashAlgorithm, Held, is_editable, is_normalized, IsFree};
ghost use Rattle.mb_load.specs.Common.{IsOnBoard, MbtType, Place, place_twice, State, Tables, tile_table};
ghost use Rattle.mb_load.specs.Committed.{IsCommitted};
ghost use Rattle.mb_loaded.specs.Edits.{only_referenced, removed_name, removed_tile, with_dates, with_name, with_null, with_tile, with_tiles, without_name, without_tile};
ghost use Rattle.mb_load.specs.EmptyTables.{AreEmpty};
ghost use Rattle.mb_loaded.specs.Empty.{empty_state};
ghost use Rattle.mb_load.specs.LoadedFrom.{IsLoadable, IsLoadedFrom, NamesAlgorithm};
ghost use Rattle.mb_load.specs.StateOf.{state_of};
ghost use Rattle.mb_store.specs.Store.{IsSound};
ghost use Rattle.mb_tables.specs.Described.{is_keyed};

/// No place stands twice in what a store tells, so that its state never hangs on the last test of loading.
pub fn told_places_apart()
    ensures { (t : Tables) (layout : MbtType) (contents : List (List Cell)) → IsSound t
        → is_keyed t.descriptions (tile_table layout) ≡ true
        → place_twice layout contents (t.rows (tile_table layout)) ≡ None }
{}

/// What a commit of its changes leaves of the tables that a set was loaded from.
pub fn changes_committed()
    ensures { (h : Held) (old new : Tables) (changes : List Change) → IsLoadedFrom old h
        → AreChangesOf h changes → Commits changes old new → IsSound new → IsCommitted h old new }
{}

/// The changes of a set are of tables, and not of views, in the tables that it was loaded from.
pub fn changes_of_tables()
    ensures { (h : Held) (t : Tables) (changes : List Change) → IsLoadedFrom t h
        → AreChangesOf h changes → AreOfTables t.descriptions changes }
{}

/// Tables that a set was loaded from are so of the edited set, too: after bytes were put at a place of zoom 0 to 30 of
/// a layout that can be edited, where no other contents stand under their digest, and after the same bytes were put at
/// several such places; after null was put at one of a layout without ids; after a tile of a cache got times of their
/// kinds; and after each other edit.
pub fn edits_stay_loaded()
    ensures put { (t : Tables) (h : Held) (p : Place) (bytes : List ℕ) → IsOnBoard p
        → is_editable h.state.layout ≡ true → IsFree h.state bytes → IsLoadedFrom t h
        → IsLoadedFrom t (with_tile h p bytes) }
    ensures shared { (t : Tables) (h : Held) (ps : List Place) (bytes : List ℕ) → All IsOnBoard ps
        → is_editable h.state.layout ≡ true → IsFree h.state bytes
        → IsLoadedFrom t h → IsLoadedFrom t (with_tiles h ps bytes) }
    ensures nulled { (t : Tables) (h : Held) (p : Place) → IsOnBoard p
        → is_normalized h.state.layout ≡ false → IsLoadedFrom t h → IsLoadedFrom t (with_null h p) }
    ensures dated { (t : Tables) (h : Held) (p : Place) (dates : Dates) → h.state.layout ≡ Cache
        → contains_key h.state.tiles p ≡ true → AreTimes dates → IsLoadedFrom t h
        → IsLoadedFrom t (with_dates h p dates) }
    ensures removed { (t : Tables) (h : Held) (p : Place) → IsLoadedFrom t h
        → IsLoadedFrom t (removed_tile h p) × IsLoadedFrom t (without_tile h p) }
    ensures named { (t : Tables) (h : Held) (name : List ℕ) (value : Option (List ℕ))
        → IsLoadedFrom t h → IsLoadedFrom t (with_name h name value) }
    ensures dropped { (t : Tables) (h : Held) → IsLoadedFrom t h
        → IsLoadedFrom t (only_referenced h) }
    ensures unnamed { (t : Tables) (h : Held) (name : List ℕ) → IsLoadedFrom t h
        → IsLoadedFrom t (removed_name h name) × IsLoadedFrom t (without_name h name) }
{}

/// Of contents those stay that are the contents of a tile's id, when those that no tile has are dropped, and no others.
pub fn dropped_have_no_tile()
    ensures kept { (h : Held) (p : Place) (id : Cell) → get h.state.ids p ≡ Some id
        → get (only_referenced h).state.contents id ≡ get h.state.contents id }
    ensures left { (h : Held) (id cell : Cell)
        → get (only_referenced h).state.contents id ≡ Some cell → (p : Place)
        × (get h.state.ids p ≡ Some id) }
{}

/// A set that loads is loaded from its tables; it is one that tables can hold, and its metadata names its algorithm.
pub fn loads_from_tables()
    ensures loaded { (t : Tables) (s : State) → IsSound t → state_of t ≡ Ok s
        → IsLoadedFrom t (fresh s) }
    ensures whole { (t : Tables) (s : State) → state_of t ≡ Ok s → IsLoadable s × NamesAlgorithm s }
{}

/// Tables that a set was loaded from, with nothing edited since, load to the same state, where its
/// metadata names its algorithm.
pub fn loads_again()
    ensures { (t : Tables) (s : State) → IsSound t → IsLoadedFrom t (fresh s) → NamesAlgorithm s
        → state_of t ≡ Ok s }
{}

/// Tables without rows are tables that the empty set was loaded from, by whatever algorithm, so that its changes
/// put each row that it gets.
pub fn empty_from_tables()
    ensures { (t : Tables) (layout : MbtType) (a : HashAlgorithm) → AreEmpty layout t
        → IsLoadedFrom t (fresh (empty_state layout a)) }
{}
