// The pieces of the archives that are joined.
use pm_format::DirEntry;

/// A run of tiles in one of several archives.
#[derive(Clone, Copy, Debug)]
pub struct Piece {
    /// The number of the archive, 0 for the first.
    pub source: usize,
    /// The run: where its contents begin counts from the data part of that archive.
    pub entry: DirEntry,
}
