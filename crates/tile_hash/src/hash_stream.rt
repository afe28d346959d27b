// The digest of bytes that come in pieces.
ghost use Rattle.std.specs.Prelude.{◌≡◌, ℕ, ◌++◌, List, [], IfOk};
ghost use Rattle.tile_hash.specs.Common.{decimal, encode_upper};
ghost use Rattle.tile_hash.specs.Digest.{digest};
ghost use Rattle.tile_hash.specs.HashStream.{HasTaken};
ghost use Rattle.tile_hash.specs.declared.algorithm.HashAlgorithm.{HashAlgorithm};

use crate::HashAlgorithm;
use crate::fnv::{OFFSET_BASIS, hashed_from};
use crate::xxh_64::Xxh64Stream;
use crate::xxh3::Xxh3Stream;
use base_values::{OutOfMemory, TextVal};
use md5::{Digest, Md5};
use std::alloc::Global;

// What each algorithm keeps of the pieces so far.
#[derive(Drop)]
enum Hasher {
    Md5(Md5),
    Fnv1a(u64),
    Fnv1aDecimal(u64),
    Xxh64(Xxh64Stream),
    Xxh3(Xxh3Stream),
}

// Upper-case hexadecimal digits.
fn upper_hex(alloc: Global, bytes: &[u8]) -> Result<TextVal, OutOfMemory>
    ensures { IfOk result (λ text. text ≡ encode_upper bytes.now) }
{
    Ok(TextVal::new(hex::encode_upper(alloc, bytes)?))
}

// Decimal digits.
fn number(alloc: Global, value: u64) -> Result<TextVal, OutOfMemory>
    ensures { IfOk result (λ text. text ≡ decimal value) }
{
    Ok(TextVal::new(format!(in alloc; "{value}")?))
}

/// The digest of bytes that come in pieces, of any number and length. The pieces aren't kept.
#[derive(Drop)]
pub struct HashStream {
    hasher: Hasher,
}

impl HashStream {
    /// A stream of this algorithm that was given no bytes.
    pub fn new(algorithm: HashAlgorithm) -> HashStream
        ensures { HasTaken algorithm result [] }
    {
        let hasher = match algorithm {
            HashAlgorithm::Md5 => Hasher::Md5(Md5::new()),
            HashAlgorithm::Fnv1a => Hasher::Fnv1a(OFFSET_BASIS),
            HashAlgorithm::Fnv1aDecimal => Hasher::Fnv1aDecimal(OFFSET_BASIS),
            HashAlgorithm::Xxh64 => Hasher::Xxh64(Xxh64Stream::new()),
            HashAlgorithm::Xxh3 => Hasher::Xxh3(Xxh3Stream::new()),
        };
        HashStream { hasher }
    }

    /// Takes the next piece.
    #[inline]
    pub fn update(&mut self, piece: &[u8])
        ensures { (a : HashAlgorithm) (bytes : List ℕ) → HasTaken a self.old bytes
            → HasTaken a self.new (bytes ++ piece.now) }
    {
        match &mut self.hasher {
            Hasher::Md5(stream) => stream.update(piece),
            Hasher::Fnv1a(hash) => *hash = hashed_from(*hash, piece),
            Hasher::Fnv1aDecimal(hash) => *hash = hashed_from(*hash, piece),
            Hasher::Xxh64(stream) => stream.update(piece),
            Hasher::Xxh3(stream) => stream.update(piece),
        }
    }

    /// The digest of all pieces together, the text that `HashAlgorithm::hash` gives these bytes. It fails
    /// only by running out of memory.
    pub fn finish(self, alloc: Global) -> Result<TextVal, OutOfMemory>
        ensures { (a : HashAlgorithm) (bytes : List ℕ) → HasTaken a self bytes
            → IfOk result (λ text. text ≡ digest a bytes) }
    {
        match self.hasher {
            Hasher::Md5(stream) => upper_hex(alloc, &stream.finalize()),
            Hasher::Fnv1a(hash) => upper_hex(alloc, &hash.to_be_bytes()),
            Hasher::Fnv1aDecimal(hash) => number(alloc, hash),
            Hasher::Xxh64(stream) => upper_hex(alloc, &stream.finish().to_be_bytes()),
            Hasher::Xxh3(stream) => upper_hex(alloc, &stream.finish().to_be_bytes()),
        }
    }
}
