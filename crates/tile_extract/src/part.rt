// A part of an archive.
use crate::IdIntervals;

/// A part of an archive: the tiles whose ids lie in intervals, and the zooms that its archive says.
#[derive(Debug, Drop)]
pub struct TilePart {
    /// The ids.
    pub intervals: IdIntervals,
    /// The least zoom, 0 to 31.
    pub min_zoom: u8,
    /// The greatest zoom, from the least one to 31.
    pub max_zoom: u8,
}
