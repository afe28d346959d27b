// Where the tiles of a set lie: their bounds, and the place to begin with.
use base_values::TextVal;

/// The bounds of a tile set.
#[derive(Debug, Drop, PartialEq, Eq)]
pub enum TileBounds {
    /// The four sides, in ten millionths of a degree.
    Whole {
        /// The western side.
        min_lon: i32,
        /// The southern side.
        min_lat: i32,
        /// The eastern side.
        max_lon: i32,
        /// The northern side.
        max_lat: i32,
    },
    /// The text of a document, unread.
    Text(TextVal),
}

/// The place of a tile set to begin with.
#[derive(Debug, Drop, PartialEq, Eq)]
pub enum TileCenter {
    /// Its longitude and latitude, in ten millionths of a degree, and its zoom.
    Whole {
        /// The longitude.
        lon: i32,
        /// The latitude.
        lat: i32,
        /// The zoom.
        zoom: u8,
    },
    /// The text of a document, unread.
    Text(TextVal),
}
