// The options of a script.
use pm_writer::PmTilesWriter;

/// The options of a script.
#[derive(Drop)]
pub struct ScriptOptions {
    /// Whether patches are taken without the hashes that chain them.
    pub force: bool,
    /// Whether the stored aggregate hash of the resulting set has to be there and right.
    pub verify: bool,
    /// What the archive says beside its tiles.
    pub writer: PmTilesWriter,
}
