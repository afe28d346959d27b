// Moments, and what a cache keeps beside the bytes of a tile.
ghost use Rattle.std.specs.Prelude.{◌≡◌, Some};

use base_values::{BlobVal, TextVal};

/// A moment: seconds since 1970-01-01, 00:00 UTC. Moments before it are negative.
#[derive(Clone, Copy, Debug, PartialEq, Eq, PartialOrd, Ord, Hash)]
pub struct UnixSeconds(pub i64);

impl From<i64> for UnixSeconds {
    ghost from_gives = { λ n s. s ≡ record { 0 = n } };

    fn from(seconds: i64) -> UnixSeconds {
        UnixSeconds(seconds)
    }
}

impl From<UnixSeconds> for i64 {
    ghost from_gives = { λ (s : _) n. n ≡ s.0 };

    fn from(moment: UnixSeconds) -> i64 {
        moment.0
    }
}

/// A tile as a cache has it.
#[derive(Drop, PartialEq, Eq)]
pub struct CachedTile {
    /// Its bytes, which may be none.
    pub tile_data: BlobVal,
    /// When it was fetched, where that is kept.
    pub fetched: Option<UnixSeconds>,
    /// When it expires, where it does.
    pub expires: Option<UnixSeconds>,
    /// The tag of its version, where it has one.
    pub etag: Option<TextVal>,
}

/// What is kept of a tile beside its bytes. A field that is None is kept as null.
#[derive(Clone, Copy, Debug, PartialEq, Eq)]
pub struct CacheEntryMeta<'m> {
    /// When the tile was fetched.
    pub fetched: Option<UnixSeconds>,
    /// When it expires. A tile without this never does.
    pub expires: Option<UnixSeconds>,
    /// The tag of its version.
    pub etag: Option<&'m str>,
}

impl<'m> CacheEntryMeta<'m> {
    /// All three.
    pub fn new(fetched: UnixSeconds, expires: UnixSeconds, etag: &'m str) -> CacheEntryMeta<'m>
        ensures { result ≡ record {
          fetched = Some fetched;
          expires = Some expires;
          etag = Some
              etag.entry;
        } }
    {
        CacheEntryMeta {
            fetched: Some(fetched),
            expires: Some(expires),
            etag: Some(etag),
        }
    }
}

impl Default for CacheEntryMeta<'_> {
    ghost use Rattle.std.specs.Prelude.{None};

    ghost is_default = { λ m. m ≡ record { fetched = None; expires = None; etag = None } };

    fn default() -> Self {
        CacheEntryMeta {
            fetched: None,
            expires: None,
            etag: None,
        }
    }
}
