// Marks in the order of their places.
ghost use Rattle.std.specs.Prelude.{◌≡◌, IfOk};
ghost use Rattle.std.specs.List.Sorted.{IsNonDecreasingBy, IsPermutation};
ghost use Rattle.tile_streaming.specs.Common.{place_at};
ghost use Rattle.tile_streaming.specs.Finding.{place_with};
ghost use Rattle.tile_streaming.specs.Spots.{AreSpots, rank, spots_from};

use crate::Mark;
use base_values::OutOfMemory;
use std::alloc::Global;
use tile_ids::{TileCoord, TileId, invert_y_value};

/// A mark in the order of places, in 16 bytes.
#[derive(Clone, Copy, Debug)]
pub(crate) struct Spot {
    /// A number that rises in the order of places.
    pub rank: u64,
    /// The index of the mark.
    pub index: usize,
}

// The number of a coordinate, which rises by zoom, column, and row counted from the bottom.
fn rank_at(coord: TileCoord) -> u64
    ensures { result ≡ rank (place_at coord) }
{
    let zoom = coord.z();
    let side = 1u64 << zoom;
    let row = invert_y_value(zoom, coord.y());
    (side + u64::from(coord.x())) * side + u64::from(row)
}

// The number of the place that has an id.
fn rank_of(id: TileId) -> u64
    ensures { result ≡ rank (place_with id) }
{
    rank_at(TileCoord::from(id))
}

// The spots of marks, in the order of the marks.
fn spots_of(alloc: Global, marks: &[Mark]) -> Result<Vec<Spot>, OutOfMemory>
    ensures { IfOk result (λ spots. spots.items ≡ spots_from 0 marks.now) }
{
    let mut spots = Vec::with_capacity(alloc, marks.len())?;
    for index in 0..marks.len() {
        let rank = rank_of(marks[index].id);
        spots.push(Spot { rank, index })?;
    }
    Ok(spots)
}

// Puts spots in the order of their numbers.
fn sort_by_rank(spots: &mut Vec<Spot>)
    ensures same { IsPermutation spots.old.items spots.new.items }
    ensures rising { IsNonDecreasingBy (λ s. s.rank) spots.new.items }
{
    spots.sort_unstable_by_key(|spot| spot.rank);
}

/// A spot for each mark, in the order of their places.
pub(crate) fn in_place_order(alloc: Global, marks: &[Mark]) -> Result<Vec<Spot>, OutOfMemory>
    ensures { IfOk result (λ spots. AreSpots marks.now spots.items) }
{
    let mut spots = spots_of(alloc, marks)?;
    sort_by_rank(&mut spots);
    Ok(spots)
}
