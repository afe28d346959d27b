// Errors of archives by their names.
ghost use Rattle.std.specs.Prelude.{◌≡◌};
ghost use Rattle.pm_format.specs.ErrorName.{error_name};

use crate::PmtError;

impl PmtError {
    /// The name of the error, without its fields.
    pub fn name(&self) -> &'static str
        ensures { result.now ≡ error_name self.now }
    {
        match self {
            PmtError::InvalidCoordinate(_, _, _) => "InvalidCoordinate",
            PmtError::InvalidTileId(_) => "InvalidTileId",
            PmtError::InvalidEntry => "InvalidEntry",
            PmtError::InvalidHeader => "InvalidHeader",
            PmtError::InvalidMagicNumber => "InvalidMagicNumber",
            PmtError::UnsupportedPmTilesVersion => "UnsupportedPmTilesVersion",
            PmtError::InvalidCompression => "InvalidCompression",
            PmtError::InvalidTileType => "InvalidTileType",
            PmtError::UnsupportedCompression(_) => "UnsupportedCompression",
            PmtError::IndexEntryOverflow => "IndexEntryOverflow",
            PmtError::Reading(_) => "Reading",
            PmtError::Failed => "Failed",
            PmtError::OverlappingEntries(_) => "OverlappingEntries",
            PmtError::UnexpectedNumberOfBytesReturned(_, _) => "UnexpectedNumberOfBytesReturned",
            PmtError::SourceModified { .. } => "SourceModified",
            PmtError::InvalidMetadata => "InvalidMetadata",
            PmtError::InvalidMetadataUtf8Encoding => "InvalidMetadataUtf8Encoding",
            PmtError::BudgetSpent => "BudgetSpent",
            PmtError::OutOfMemory => "OutOfMemory",
        }
    }
}
