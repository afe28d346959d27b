//! Laws of conversions that hold no contents.
ghost use Rattle.std.specs.Prelude.{◌≡◌, Bool, ℕ, List, map, Ok, Option, Result, Some, true};
ghost use Rattle.tile_bridge.specs.Convert.{HoldsExactly};
ghost use Rattle.tile_bridge.specs.Leaves.{Leaves};
ghost use Rattle.tile_bridge.specs.Outcome.{outcome};
ghost use Rattle.tile_extract.specs.Part.{cut};
ghost use Rattle.tile_extract.specs.declared.part.TilePart.{TilePart};
ghost use Rattle.tile_streaming.specs.Agreement.{Agree, HasOneArchive};
ghost use Rattle.tile_streaming.specs.Common.{archive_map, Coord, ConvertCauses, ConvertError, ConvertOptions, ConvertReport, due, list_all, State, Tables, TileSet};
ghost use Rattle.tile_streaming.specs.Part.{part_of};
ghost use Rattle.tile_streaming.specs.Streaming.{StreamCauses, StreamLeaves};
ghost use Rattle.tile_streaming.specs.declared.error.StreamError.{StreamError};
ghost use Rattle.tile_streaming.specs.declared.report.StreamReport.{StreamReport};

use crate::StreamOptions;
use mb_store::TileStore;

/// The archive of a part of tiles has the tiles of the archive of all of them at the ids of the part, and no others. So
/// archives of parts are the parts of one, as `tile_join::laws` asks for.
pub fn parts_are_cut_out()
    ensures { (tiles : TileSet) (part : TilePart) (whole own : List ℕ)
        → HoldsExactly whole tiles → HoldsExactly own (part_of (Some part.intervals) tiles)
        → (id : ℕ) → archive_map own id ≡ cut (archive_map whole) part id }
{}

/// Where all stores tell, what is due of a conversion is the outcome of their tables. So it is the same for stores of
/// any kinds that hold the same tables.
pub fn told_tables_have_one_outcome<S: TileStore, P: TileStore>()
    ensures { (base : S) (patches : List P) (o : ConvertOptions)
        → S.tells base ≡ true → list_all P.tells patches ≡ true
        → due S.tells S.told P.tells P.told base patches o
        ≡ Some (outcome (S.told base) (map P.told patches) o.force o.verify) }
{}

/// Where the stores and the medium tell, `convert_owned` and `convert_patched` agree, as do `convert` and
/// `convert_streamed`: with the same tables, bytes and options both come to the same archive and report, or to the same
/// refusal, unless a fault or lack of memory ends one of them. The premises are clauses of both calls, of what is due
/// of these tables.
///
/// The archives are equal byte for byte where what is due has one archive (`HasOneArchive`): with options of the caller
/// always, and with those that the set says of itself where its metadata has no floating-point numbers. Else they have
/// the same tiles.
pub fn both_ways_agree<O: StreamOptions>()
    ensures { (options : O) (comes_to : Result State ConvertError) (base_tells : Bool)
        (tells : List Bool) (told : List Tables) (before after : Tables) (coords : List Coord)
        (old a b : List ℕ) (held : Result ConvertReport ConvertError)
        (streamed : Result StreamReport StreamError)
        → ConvertCauses (O.asks options).writer (Some comes_to) (Some old) held
        → Leaves (O.gives options) (Some comes_to) (O.asks options) base_tells tells told coords
        held (Some old) (Some a) before after
        → StreamCauses (O.asks options).writer (Some comes_to) true (Some old) streamed
        → StreamLeaves (O.gives options) (Some comes_to) true coords streamed (Some old) (Some b)
        → Agree (O.gives options) comes_to held a streamed b }
{}

/// With options of the caller each state that is due has one archive.
pub fn callers_have_one_archive()
    ensures { (o : ConvertOptions) (comes_to : Result State ConvertError)
        → HasOneArchive (λ _ w. w ≡ o.writer) comes_to }
{}
