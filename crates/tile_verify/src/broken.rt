// Broken parts of an archive.

/// A part of an archive: an entry, named by its directory and its index there.
#[derive(Clone, Copy, Debug, PartialEq, Eq)]
pub struct Place {
    /// How many leaves lead to the directory: 0 for the root, at most 6.
    pub depth: u8,
    /// Where the directory begins in the leaf part, in bytes; 0 for the root.
    pub offset: u64,
    /// The index of the entry in its directory, from 0.
    pub index: u64,
}

/// What is wrong with an entry.
#[derive(Clone, Copy, Debug, PartialEq, Eq)]
pub enum Reason {
    /// Its id isn't above that of the entry before.
    IdsFall,
    /// Its id isn't within the range of its directory, or its run passes that.
    OutsideRange,
    /// Its run passes the last id of zoom 31.
    PastMaxId,
    /// The run of the entry before passes its id.
    RunOverlaps,
    /// It names a leaf from a directory that is six leaves deep.
    TooDeep,
    /// Its leaf passes the end of the bytes.
    LeafPastEnd,
    /// Its leaf isn't a directory.
    NotDecoded,
    /// Its tile passes the end of the bytes.
    TilePastEnd,
}
