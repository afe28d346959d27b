// The tiles that are held.
ghost use Rattle.std.specs.Prelude.{◌≡◌, ◌≤◌, [], length, nat_eq, option_map, slice_get, Some, IfOk, OnOk, OnErr};
ghost use Rattle.tile_serve.specs.Common.{bounded, IsWithin, lookup, used, weight_of};
ghost use Rattle.tile_serve.specs.Tiles.{with_tile};

use crate::kept::KeptTile;
use base_values::OutOfMemory;
use bounded_lru::BoundedLru;
use bytes::Bytes;
use std::alloc::Global;
use std::marker::Model;
use tile_ids::TileId;

/// The tiles that were used last: at most so many, and of no more bytes together than a limit.
#[derive(Drop)]
pub(crate) struct TileCache {
    tiles: BoundedLru<KeptTile>,
}

impl Model for TileCache {
    ghost use Rattle.std.specs.Prelude.{◌≡◌, ℕ, List, is_some, true};
    ghost use Rattle.tile_serve.specs.Common.{Bounded};

    ghost Value = { Bounded (List ℕ) };

    ghost view = { λ c. c.tiles };

    ghost invariant = { λ c. is_some c.tiles.limit ≡ true };
}

impl TileCache {
    /// Nothing yet. The capacity is to be at least 1. Room is made only as tiles come.
    pub(crate) fn new(alloc: Global, capacity: usize, bytes: u64) -> Result<TileCache, OutOfMemory>
        requires { 1 ≤ capacity }
        ensures { IfOk result (λ c. c ≡ bounded [] capacity (Some bytes)) }
    {
        Ok(TileCache {
            tiles: BoundedLru::new(alloc, capacity, Some(bytes))?,
        })
    }

    /// How many bytes the tiles have together.
    pub(crate) fn held_bytes(&self) -> u64
        ensures sum { result ≡ weight_of length self.now.pairs }
        ensures within { IsWithin length self.now }
    {
        self.tiles.weight()
    }

    /// The tile of an id, which becomes the latest used.
    pub(crate) fn get(&mut self, id: TileId) -> Result<Option<Bytes>, OutOfMemory>
        ensures found { IfOk result (λ found. found ≡ lookup (nat_eq id) self.old.pairs) }
        ensures used { self.new ≡ used self.old id }
        ensures within { IsWithin length self.new }
    {
        if !self.tiles.promote(id.value()) {
            return Ok(None);
        }
        self.copy_latest()
    }

    // The latest used tile.
    fn copy_latest(&self) -> Result<Option<Bytes>, OutOfMemory>
        ensures { IfOk result
            (λ latest. latest ≡ option_map (λ e. e.1) (slice_get self.now.pairs 0)) }
    {
        let Some(kept) = self.tiles.latest() else {
            return Ok(None);
        };
        Ok(Some(kept.bytes().clone()?))
    }

    /// Puts a tile in front of the others, unless it is longer than the limit, and gives up the last of these until the
    /// rest is within the bounds.
    pub(crate) fn put(&mut self, id: TileId, bytes: Bytes) -> Result<(), OutOfMemory>
        ensures ok { OnOk result (self.new ≡ with_tile self.old id bytes) }
        ensures err { OnErr result (self.new ≡ self.old) }
        ensures within { IsWithin length self.new }
    {
        self.tiles.insert(id.value(), KeptTile::new(bytes))?;
        Ok(())
    }
}
