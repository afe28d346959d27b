// Tiles in a cache, with what each of them weighs.
ghost use Rattle.std.specs.Prelude.{◌≡◌};

use bounded_lru::Weigh;
use bytes::Bytes;
use std::marker::Model;

/// A tile in a cache. It weighs as much as it has bytes.
#[derive(Drop)]
pub(crate) struct KeptTile {
    bytes: Bytes,
}

impl Model for KeptTile {
    ghost use Rattle.std.specs.Prelude.{ℕ, List};

    ghost Value = { List ℕ };

    ghost view = { λ k. k.bytes };
}

impl KeptTile {
    pub(crate) fn new(bytes: Bytes) -> KeptTile
        ensures { result ≡ bytes }
    {
        KeptTile { bytes }
    }

    pub(crate) fn bytes(&self) -> &Bytes
        ensures { result.now ≡ self.now }
    {
        &self.bytes
    }
}

impl Weigh for KeptTile {
    ghost use Rattle.std.specs.Prelude.{length};

    ghost weight = { length };

    fn weigh(&self) -> u64 {
        self.bytes.len() as u64
    }
}
