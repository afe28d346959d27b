//! Laws of ids and of the curve, over the definitions that the conversions are proved by. None of these
//! functions does anything.
ghost use Rattle.std.specs.Prelude.{◌≡◌, ◌+◌, ◌-◌, ◌*◌, ◌^◌, ◌<◌, ◌≤◌, ◌↔◌, ℕ, ℤ, Option, slice_index};
ghost use Rattle.tile_ids.specs.Coord.{Coord, IsCoord, IsChild, IsIndexOf, ShareSide, inverted_y, tile_index};
ghost use Rattle.tile_ids.specs.Hilbert.{number_of, id_of, coord_of, pyramid};
ghost use Rattle.tile_ids.specs.Interval.{IsInterval, HoldsDescendants};

use crate::{MAX_TILE_ID, PYRAMID_SIZE_BY_ZOOM};

/// Counting a row from the other edge twice gives the row.
pub fn inverting_twice_gives_the_row()
    ensures { (zoom y : ℕ) → y < 2 ^ zoom → inverted_y zoom (inverted_y zoom y) ≡ y }
{}

/// A stored zoom, column and row give exactly the coordinate of zoom 0 to 30 whose own they are.
pub fn stored_indexes_name_coordinates()
    ensures { (z x y : Option ℤ) (c : Coord) → (tile_index z x y ≡ Some c) ↔ IsIndexOf z x y c }
{}

/// The entry of each zoom is how many tiles the zooms below have together.
pub fn pyramid_sizes_are_exact()
    ensures { (zoom : ℕ) → zoom ≤ 31 → slice_index PYRAMID_SIZE_BY_ZOOM zoom ≡ pyramid zoom }
{}

/// `MAX_TILE_ID` is the id of the last tile of zoom 31, and no tile has a greater one.
pub fn last_id_is_the_maximum()
    ensures taken { id_of (record { z = 31; x = 2 ^ 31 - 1; y = 0 }) ≡ MAX_TILE_ID }
    ensures greatest { (c : Coord) → IsCoord c → id_of c ≤ MAX_TILE_ID }
{}

/// No two coordinates have one id.
pub fn ids_are_distinct()
    ensures { (c d : Coord) → IsCoord c → IsCoord d → id_of c ≡ id_of d → c ≡ d }
{}

/// Each id up to `MAX_TILE_ID` is that of the coordinate with this id.
pub fn each_id_has_a_coordinate()
    ensures { (id : ℕ) → id ≤ MAX_TILE_ID → IsCoord (coord_of id) × (id_of (coord_of id) ≡ id) }
{}

/// An id of a zoom lies between the first and the last id of a tile's descendants there exactly where
/// its tile is a descendant.
pub fn subtree_intervals_hold_descendants()
    ensures { (c : Coord) (zoom : ℕ) (ids : ℕ × ℕ)
        → IsCoord c → IsInterval c zoom ids → HoldsDescendants c zoom ids }
{}

/// Two tiles of one zoom whose ids follow each other share a side.
pub fn consecutive_ids_share_a_side()
    ensures { (c d : Coord)
        → IsCoord c → IsCoord d → c.z ≡ d.z → id_of d ≡ id_of c + 1
        → ShareSide (c.x, c.y) (d.x, d.y) }
{}

/// The number of a child within its zoom is four times its parent's and 0, 1, 2 or 3 more, and each of
/// the four is one child's.
pub fn children_have_four_numbers()
    ensures within { (c d : Coord)
        → IsCoord c → IsCoord d → IsChild c d
        → (i : ℕ) × (i < 4) × (number_of d ≡ 4 * number_of c + i) }
    ensures each { (c : Coord) (i : ℕ)
        → IsCoord c → c.z < 31 → i < 4
        → (d : Coord) × IsCoord d × IsChild c d × (number_of d ≡ 4 * number_of c + i) }
    ensures once { (c d e : Coord)
        → IsCoord d → IsCoord e → IsChild c d → IsChild c e → number_of d ≡ number_of e
        → d ≡ e }
{}
