//! Laws of extraction.
ghost use Rattle.std.specs.Prelude.{◌≡◌, ◌<◌, ◌≤◌, ◌^◌, ℕ, All, List, Ok, Result, length};
ghost use Rattle.tile_extract.specs.Boxes.{boxes_hold, in_boxes};
ghost use Rattle.tile_extract.specs.Common.{ArchivePlaces, AreApart, Coord, id_of, IsCoord, IsUtf8, metadata_read, Sound};
ghost use Rattle.tile_extract.specs.Completeness.{CanExtract, EndsWell, PartCanExtract, PartEndsWell};
ghost use Rattle.tile_extract.specs.Extract.{HasZooms, part_count};
ghost use Rattle.tile_extract.specs.Subtree.{IsValid, count_met};
ghost use Rattle.tile_extract.specs.declared.error.ExtractError.{ExtractError};
ghost use Rattle.tile_extract.specs.declared.part.TilePart.{TilePart};
ghost use Rattle.tile_extract.specs.declared.zoom_box.ZoomBox.{ZoomBox};

/// Where an archive is sound, its metadata a text, the zoom valid, the medium empty and told, the tiles few enough, the
/// new archive within its bounds, and no count of faults rose, `extract` answers `Ok` or `OutOfMemory`.
pub fn extracted_where_sound()
    ensures well { (b : List ℕ) (c : Coord) (m most : ℕ)
        (result : Result ArchivePlaces ExtractError) → EndsWell b c m most result }
{}

/// Where an archive is sound, its metadata a text of fewer than 2^63 bytes, the zoom valid, and the tiles no more than
/// the limit and than 2^28, the new archive keeps within its bounds.
pub fn few_tiles_keep_within_bounds()
    ensures can { (b : List ℕ) (c : Coord) (m most : ℕ) (s : Sound b) (text : List ℕ)
        → All (λ byte. byte < 256) b → IsValid c m → metadata_read b s.found.0 ≡ Ok text
        → IsUtf8 text → length text < 2 ^ 63
        → count_met b s.found c m ≤ most → count_met b s.found c m ≤ 2 ^ 28
        → CanExtract b c m most }
{}

/// The first law of any part whose intervals are in order and apart, for `extract_intervals`.
pub fn parts_extracted_where_sound()
    ensures well { (b : List ℕ) (part : TilePart) (most : ℕ)
        (result : Result ArchivePlaces ExtractError) → PartEndsWell b part most result }
{}

/// And the second one.
pub fn few_tiles_of_a_part_keep_within_bounds()
    ensures can { (b : List ℕ) (part : TilePart) (most : ℕ) (s : Sound b) (text : List ℕ)
        → All (λ byte. byte < 256) b → AreApart 0 part.intervals → HasZooms part
        → metadata_read b s.found.0 ≡ Ok text → IsUtf8 text → length text < 2 ^ 63
        → part_count b s.found part ≤ most → part_count b s.found part ≤ 2 ^ 28
        → PartCanExtract b part most }
{}

/// The id of a tile is one that boxes hold exactly where a box of its zoom has its column and its row.
pub fn boxes_hold_their_tiles()
    ensures { (boxes : List ZoomBox) (c : Coord)
        → IsCoord c → boxes_hold boxes (id_of c) ≡ in_boxes boxes c }
{}
