// XXH3 with 64 bits and seed 0, by the length of the input.
ghost use Rattle.std.specs.Prelude.{◌≡◌};
ghost use Rattle.tile_hash.specs.Xxh3.{xxh3_64};

mod long;
mod middle;
mod mixing;
mod secret;
mod short;
mod stream;

use long::of_long;
use middle::{of_middle, of_upper};
use short::of_short;
pub(crate) use stream::Xxh3Stream;

/// The XXH3 hash of these bytes with 64 bits and seed 0 (the xxHash specification).
#[tactic(auto, unfolding(crate::specs::Xxh3::xxh3_64))]
pub fn xxh3_64(bytes: &[u8]) -> u64
    ensures { result ≡ xxh3_64 bytes.now }
{
    if bytes.len() <= 16 {
        of_short(bytes)
    } else if bytes.len() <= 128 {
        of_middle(bytes)
    } else if bytes.len() <= 240 {
        of_upper(bytes)
    } else {
        of_long(bytes)
    }
}
