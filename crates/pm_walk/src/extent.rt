// How much of an archive is walked.

/// The first id of zoom 31: tiles of a set have zooms up to 30.
pub const FIRST_TOO_DEEP: u64 = 1_537_228_672_809_129_301;

/// How much of an archive is walked, and what its tile entries are tested for.
#[derive(Clone, Copy, Debug, PartialEq, Eq)]
pub enum Extent {
    /// The leaves that may have an id of some intervals. A tile entry's run is tested against the ids of tiles, and its
    /// parts in the intervals are collected.
    Within,
    /// All leaves. A tile entry is tested as one of a set of tiles, whose zooms are at most 30, and it is collected as
    /// it is, with its contents.
    Whole,
}
