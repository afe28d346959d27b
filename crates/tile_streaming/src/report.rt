// What a conversion that holds no contents reports.
use base_values::TextVal;
use pm_writer::ArchivePlaces;
use tile_bridge::Answers;

/// What a conversion found and wrote.
#[derive(Debug, Drop)]
pub struct StreamReport {
    /// The tiles that were asked for.
    pub answers: Answers,
    /// The aggregate hash of the tile set, where it was to be verified.
    pub aggregate: Option<TextVal>,
    /// Where the parts of the archive lie, and what it counts.
    pub places: ArchivePlaces,
}
