// The words in which the refusal of a store is shown.
ghost use Rattle.std.specs.Prelude.{◌≡◌, ◌++◌, [], ◌∷◌, codes, flat_map, IfOk, OnOk, string_bytes};
ghost use Rattle.tileset.specs.Common.{layout_words};
ghost use Rattle.tileset.specs.RefusalText.{cell_text, spaced, spelled_byte, store_fields, store_name, store_text};

use base_values::OutOfMemory;
use mb_store::{Cell, MbtError, MbtType};
use std::alloc::Global;

// Appends a byte of a text as a script spells it.
fn push_spelled(alloc: Global, text: &mut String, byte: u8) -> Result<(), OutOfMemory>
    ensures { OnOk result (string_bytes text.new ≡ string_bytes text.old ++ spelled_byte byte) }
{
    if byte.is_ascii_graphic() && byte != b'%' {
        text.push(char::from(byte))?;
        return Ok(());
    }
    text.push('%')?;
    text.push_str(hex::encode_upper(alloc, &[byte])?.as_str())?;
    Ok(())
}

// A text as a script spells it, `%` and two digits in place of each byte but 21 to 7E.
fn spelled(alloc: Global, bytes: &[u8]) -> Result<String, OutOfMemory>
    ensures { IfOk result (λ text. string_bytes text ≡ codes "t" ++ flat_map spelled_byte
        bytes.now) }
{
    let mut text = String::from_str(alloc, "t")?;
    for byte in bytes {
        push_spelled(alloc, &mut text, *byte)?;
    }
    Ok(text)
}

// A cell as a script spells it.
fn cell_text(alloc: Global, cell: &Cell) -> Result<String, OutOfMemory>
    ensures { IfOk result (λ text. string_bytes text ≡ cell_text cell.now) }
{
    match cell {
        Cell::Null => Ok(String::from_str(alloc, "n")?),
        Cell::Other => Ok(String::from_str(alloc, "o")?),
        Cell::Int(number) => Ok(format!(in alloc; "i{number}")?),
        Cell::Text(text) => spelled(alloc, text.as_str().as_bytes()),
        Cell::Blob(blob) => {
            let digits = hex::encode(alloc, blob.as_bytes())?;
            Ok(format!(in alloc; "x{digits}")?)
        }
    }
}

// A field after a space.
fn one_field(alloc: Global, field: &str) -> Result<String, OutOfMemory>
    ensures { IfOk result (λ text. string_bytes text ≡ spaced (field.now ∷ [])) }
{
    Ok(format!(in alloc; " {field}")?)
}

// Two fields, each after a space.
fn two_fields(alloc: Global, first: &str, second: &str) -> Result<String, OutOfMemory>
    ensures { IfOk result (λ text. string_bytes text ≡ spaced (first.now ∷ second.now ∷ [])) }
{
    Ok(format!(in alloc; " {first} {second}")?)
}

// The words of two layouts, each after a space.
fn two_layouts(alloc: Global, first: MbtType, second: MbtType) -> Result<String, OutOfMemory>
    ensures { IfOk result
        (λ text. string_bytes text ≡ spaced (layout_words first ∷ layout_words second ∷ [])) }
{
    Ok(format!(in alloc; " {first} {second}")?)
}

// Three cells, each after a space.
fn three_cells(alloc: Global, zoom: &Cell, column: &Cell, row: &Cell) -> Result<String, OutOfMemory>
    ensures { IfOk result (λ text. string_bytes text ≡ spaced (cell_text zoom.now ∷ cell_text
        column.now ∷ cell_text row.now ∷ [])) }
{
    let zoom = cell_text(alloc, zoom)?;
    let column = cell_text(alloc, column)?;
    let row = cell_text(alloc, row)?;
    Ok(format!(in alloc; " {zoom} {column} {row}")?)
}

// The name of a refusal.
fn name_of(error: &MbtError) -> &'static str
    ensures { result.now ≡ store_name error.now }
{
    match error {
        MbtError::InvalidDataFormat => "InvalidDataFormat",
        MbtError::NoUniquenessConstraint => "NoUniquenessConstraint",
        MbtError::StoreFault => "StoreFault",
        MbtError::AggHashValueNotFound => "AggHashValueNotFound",
        MbtError::CannotDiffFileWithoutHash => "CannotDiffFileWithoutHash",
        MbtError::DiffingDiffFile => "DiffingDiffFile",
        MbtError::PatchFileHasNoHashes => "PatchFileHasNoHashes",
        MbtError::PatchFileHasNoBeforeHash => "PatchFileHasNoBeforeHash",
        MbtError::UnsupportedPatchType => "UnsupportedPatchType",
        MbtError::UnsupportedCopyOperation => "UnsupportedCopyOperation",
        MbtError::DuplicateRow(_) => "DuplicateRow",
        MbtError::UnsupportedHashAlgorithm { .. } => "UnsupportedHashAlgorithm",
        MbtError::InvalidTileIndex { .. } => "InvalidTileIndex",
        MbtError::MissingTileReference { .. } => "MissingTileReference",
        MbtError::IncorrectTileHash { .. } => "IncorrectTileHash",
        MbtError::AggHashMismatch { .. } => "AggHashMismatch",
        MbtError::AggHashMismatchWithDiff { .. } => "AggHashMismatchWithDiff",
        MbtError::IdCollision { .. } => "IdCollision",
        MbtError::DuplicateValues => "DuplicateValues",
        MbtError::DestinationFileExists => "DestinationFileExists",
        MbtError::NonEmptyTargetFile => "NonEmptyTargetFile",
        MbtError::MismatchedTargetType { .. } => "MismatchedTargetType",
        MbtError::AggHashMismatchAfterApply { .. } => "AggHashMismatchAfterApply",
        MbtError::InvalidZoomValue(..) => "InvalidZoomValue",
        MbtError::UnsupportedFileExtension(_) => "UnsupportedFileExtension",
        MbtError::InconsistentTileFormats { .. } => "InconsistentTileFormats",
        MbtError::NoFormatInMetadata => "NoFormatInMetadata",
        MbtError::UnknownFormatInMetadata { .. } => "UnknownFormatInMetadata",
        MbtError::TreeFault => "TreeFault",
        MbtError::NotACacheFile => "NotACacheFile",
        MbtError::OutOfMemory => "OutOfMemory",
    }
}

// The fields of a refusal in their order, each after a space.
fn fields_of(alloc: Global, error: &MbtError) -> Result<String, OutOfMemory>
    ensures { IfOk result (λ text. string_bytes text ≡ spaced (store_fields error.now)) }
{
    match error {
        MbtError::DuplicateRow(table) => one_field(alloc, table.name()),
        MbtError::UnsupportedHashAlgorithm { algorithm } => one_field(alloc, algorithm.as_str()),
        MbtError::InvalidTileIndex {
            zoom_level,
            tile_column,
            tile_row,
        } => three_cells(alloc, zoom_level, tile_column, tile_row),
        MbtError::MissingTileReference { tile_id, table } => {
            two_fields(alloc, tile_id.as_str(), table.name())
        }
        MbtError::IncorrectTileHash { stored, computed } => {
            two_fields(alloc, stored.as_str(), computed.as_str())
        }
        MbtError::AggHashMismatch { computed, stored } => {
            two_fields(alloc, computed.as_str(), stored.as_str())
        }
        MbtError::AggHashMismatchWithDiff {
            before_apply_hash,
            agg_hash,
        } => two_fields(alloc, before_apply_hash.as_str(), agg_hash.as_str()),
        MbtError::IdCollision { id } => one_field(alloc, id.as_str()),
        MbtError::MismatchedTargetType { actual, desired } => {
            two_layouts(alloc, *actual, *desired)
        }
        MbtError::AggHashMismatchAfterApply {
            after_apply_hash,
            agg_hash,
        } => two_fields(alloc, after_apply_hash.as_str(), agg_hash.as_str()),
        MbtError::InvalidZoomValue(name, value) => two_fields(alloc, name, value.as_str()),
        MbtError::UnsupportedFileExtension(path) => one_field(alloc, path.as_str()),
        MbtError::InconsistentTileFormats { path } => one_field(alloc, path.as_str()),
        MbtError::UnknownFormatInMetadata { format } => one_field(alloc, format.as_str()),
        _ => Ok(String::new(alloc)),
    }
}

/// The name of a refusal, and its fields in their order, each after a space. Texts are shown as they are, and cells
/// as a script spells them.
pub(crate) fn store_text(alloc: Global, error: &MbtError) -> Result<String, OutOfMemory>
    ensures { IfOk result (λ text. string_bytes text ≡ store_text error.now) }
{
    let name = name_of(error);
    let fields = fields_of(alloc, error)?;
    Ok(format!(in alloc; "{name}{fields}")?)
}
