// Sizes of tiles, one after another.
ghost use Rattle.std.specs.Prelude.{◌≡◌};
ghost use Rattle.mb_check.specs.Sizes.{greatest_with, info_by, least_with, no_sizes, with_size};

use crate::ZoomInfo;

/// The sizes of tiles so far: how many tiles there are, null ones included, the least and the greatest size, and the
/// sum. Counts and sums stop at the greatest `u64`.
#[derive(Clone, Copy, Debug)]
pub(crate) struct Sizes {
    tile_count: u64,
    least: Option<u64>,
    greatest: Option<u64>,
    total: u64,
}

/// The least of numbers so far and one more.
pub(crate) fn least_with(least: Option<u64>, number: u64) -> Option<u64>
    ensures { result ≡ least_with least number }
{
    match least {
        Some(least) => Some(least.min(number)),
        None => Some(number),
    }
}

/// The greatest of numbers so far and one more.
pub(crate) fn greatest_with(greatest: Option<u64>, number: u64) -> Option<u64>
    ensures { result ≡ greatest_with greatest number }
{
    match greatest {
        Some(greatest) => Some(greatest.max(number)),
        None => Some(number),
    }
}

impl Sizes {
    /// Those of no tiles.
    pub(crate) fn none() -> Sizes
        ensures { result ≡ no_sizes }
    {
        Sizes {
            tile_count: 0,
            least: None,
            greatest: None,
            total: 0,
        }
    }

    /// Those with one more tile, null or of a size in bytes.
    pub(crate) fn with_size(self, size: Option<u64>) -> Sizes
        ensures { result ≡ with_size self size }
    {
        let tile_count = self.tile_count.saturating_add(1);
        match size {
            Some(size) => Sizes {
                tile_count,
                least: least_with(self.least, size),
                greatest: greatest_with(self.greatest, size),
                total: self.total.saturating_add(size),
            },
            None => Sizes { tile_count, ..self },
        }
    }

    /// What they tell of a zoom, if it has tiles.
    pub(crate) fn info(self, zoom: u8) -> Option<ZoomInfo>
        ensures { result ≡ info_by zoom self }
    {
        if self.tile_count == 0 {
            return None;
        }
        Some(ZoomInfo {
            zoom,
            tile_count: self.tile_count,
            min_tile_size: self.least.unwrap_or(0),
            max_tile_size: self.greatest.unwrap_or(0),
            total_size: self.total,
        })
    }
}
