// The hash of all tiles of a loaded set.
ghost use Rattle.std.specs.Prelude.{◌≡◌, ◌++◌, ℕ, List, Option, IfOk};
ghost use Rattle.mb_loaded.specs.Aggregate.{aggregate, bytes_of, in_hexadecimal, tile_text};
ghost use Rattle.mb_loaded.specs.Common.{blob_cell, HashAlgorithm, place_at};
ghost use Rattle.tile_hash.specs.HashStream.{HasTaken};

use crate::Loaded;
use base_values::{OutOfMemory, TextVal};
use itoa::Buffer;
use mb_store::Cell;
use std::alloc::Global;
use tile_hash::{HashAlgorithm, HashStream};
use tile_ids::{TileCoord, invert_y_value};

// The algorithm whose digests are the same number in hexadecimal.
fn in_hexadecimal(algorithm: HashAlgorithm) -> HashAlgorithm
    ensures { result ≡ in_hexadecimal algorithm }
{
    match algorithm {
        HashAlgorithm::Fnv1aDecimal => HashAlgorithm::Fnv1a,
        other => other,
    }
}

// The bytes of a tile, none where they are null.
fn bytes_of(cell: &Cell) -> &[u8]
    ensures { (contents : Option (List ℕ)) → blob_cell contents ≡ cell.now
        → result.now ≡ bytes_of contents }
{
    match cell {
        Cell::Blob(bytes) => bytes.as_bytes(),
        _ => &[],
    }
}

// Hashes the zoom, column and row of a tile in decimal, the row counted from the bottom, and its
// bytes, if they aren't null.
#[tactic(auto, using(crate::proofs::AggregateLemmas::four_parts))]
fn hash_tile(stream: &mut HashStream, coord: TileCoord, cell: &Cell)
    ensures { (a : HashAlgorithm) (m : List ℕ) (contents : Option (List ℕ))
        → blob_cell contents ≡ cell.now → HasTaken a stream.old m
        → HasTaken a stream.new (m ++ tile_text (place_at coord, contents)) }
{
    let zoom = coord.z();
    let line = invert_y_value(zoom, coord.y());
    stream.update(Buffer::new().format(zoom).as_bytes());
    stream.update(Buffer::new().format(coord.x()).as_bytes());
    stream.update(Buffer::new().format(line).as_bytes());
    stream.update(bytes_of(cell));
}

impl Loaded {
    /// The hash of all tiles by the algorithm of the set: of their numbers in decimal and their bytes, one tile after
    /// another in the order of zoom, column and row counted from the bottom. Null adds no bytes. In hexadecimal, also
    /// for `Fnv1aDecimal`; a set without tiles has the digest of no bytes, which is decimal for that algorithm. It
    /// fails only by running out of memory, of which it takes no more than the text needs.
    pub fn aggregate(&self, alloc: Global) -> Result<TextVal, OutOfMemory>
        ensures { IfOk result
            (λ text. text ≡ aggregate self.now.state.algorithm self.now.state.tiles) }
    {
        self.aggregate_by(alloc, self.algorithm())
    }

    /// The same hash by any algorithm.
    pub fn aggregate_by(
        &self,
        alloc: Global,
        algorithm: HashAlgorithm,
    ) -> Result<TextVal, OutOfMemory>
        ensures { IfOk result (λ text. text ≡ aggregate algorithm self.now.state.tiles) }
    {
        if self.tile_count() == 0 {
            return algorithm.hash(alloc, &[]);
        }
        let mut stream = HashStream::new(in_hexadecimal(algorithm));
        for index in 0..self.tile_count() {
            let (coord, cell) = self.tile_at(index);
            hash_tile(&mut stream, coord, cell);
        }
        stream.finish(alloc)
    }
}
