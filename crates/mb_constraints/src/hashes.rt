// Stored digests of contents.
ghost use Rattle.std.specs.Prelude.{◌≡◌, IfErr, IfOk, map};
ghost use Rattle.mb_constraints.specs.Common.{cell_at, first_refused, HashAlgorithm, Tests, to_ascii_uppercase};
ghost use Rattle.mb_constraints.specs.Hashes.{wrong_digest, wrong_hash, wrong_id, wrong_tile_hash};

use base_values::TextVal;
use mb_lists::{Content, cell_at};
use mb_store::{Cell, MbtError, MbtResult, MbtType, NormalizedSchema, Row};
use std::alloc::Global;
use tile_hash::HashAlgorithm;

// A text with ASCII letters in upper case.
fn upper(alloc: Global, text: &str) -> MbtResult<TextVal>
    ensures text { IfOk result (λ u. u ≡ map to_ascii_uppercase text.now) }
    ensures memory { IfErr result (λ e. e ≡ MbtError.OutOfMemory) }
{
    Ok(TextVal::new(text.to_ascii_uppercase(alloc)?))
}

// The test of a stored text, that it is the digest of these bytes.
fn test_digest(alloc: Global, algorithm: HashAlgorithm, bytes: &[u8], stored: &str) -> MbtResult<()>
    ensures { Tests (wrong_digest algorithm bytes.now stored.now) result }
{
    let stored = upper(alloc, stored)?;
    if stored.as_str().as_bytes() == algorithm.hash_into(bytes).as_bytes() {
        return Ok(());
    }
    let computed = algorithm.hash(alloc, bytes)?;
    Err(MbtError::IncorrectTileHash { stored, computed })
}

// The test of contents and their stored digest.
fn test_hash(
    alloc: Global,
    algorithm: HashAlgorithm,
    contents: &Cell,
    stored: &Cell,
) -> MbtResult<()>
    ensures { Tests (wrong_hash algorithm contents.now stored.now) result }
{
    match (contents, stored) {
        (Cell::Blob(bytes), Cell::Text(text)) => {
            test_digest(alloc, algorithm, bytes.as_bytes(), text.as_str())
        }
        _ => Ok(()),
    }
}

// The test of the digest of a row that has one.
fn test_row_hash(alloc: Global, algorithm: HashAlgorithm, row: &Row) -> MbtResult<()>
    ensures { Tests (wrong_hash algorithm (cell_at 3 row.now) (cell_at 4 row.now)) result }
{
    let null = Cell::Null;
    let contents = cell_at(row, 3, &null);
    test_hash(alloc, algorithm, contents, cell_at(row, 4, &null))
}

// The test of the digest of a tile row.
fn test_tile_hash(
    alloc: Global,
    layout: MbtType,
    algorithm: HashAlgorithm,
    row: &Row,
) -> MbtResult<()>
    ensures { Tests (wrong_tile_hash layout algorithm row.now) result }
{
    match layout {
        MbtType::FlatWithHash => test_row_hash(alloc, algorithm, row),
        _ => Ok(()),
    }
}

/// The test of the digests of all tile rows: the first that is wrong.
pub fn test_tile_hashes(
    alloc: Global,
    layout: MbtType,
    algorithm: HashAlgorithm,
    rows: &[Row],
) -> MbtResult<()>
    ensures { Tests (first_refused (wrong_tile_hash layout algorithm) rows.now) result }
{
    for row in rows {
        test_tile_hash(alloc, layout, algorithm, row)?;
    }
    Ok(())
}

// The test of the id of contents, where it is their digest.
fn test_content_hash(
    alloc: Global,
    layout: MbtType,
    algorithm: HashAlgorithm,
    content: &Content,
) -> MbtResult<()>
    ensures { Tests (wrong_id layout algorithm content.now) result }
{
    match layout {
        MbtType::Normalized {
            schema: NormalizedSchema::Hash,
            ..
        } => test_hash(alloc, algorithm, &content.cell, &content.id),
        _ => Ok(()),
    }
}

/// The test of the digests of all contents: the first that is wrong.
pub fn test_content_hashes(
    alloc: Global,
    layout: MbtType,
    algorithm: HashAlgorithm,
    contents: &[Content],
) -> MbtResult<()>
    ensures { Tests (first_refused (wrong_id layout algorithm) contents.now) result }
{
    for content in contents {
        test_content_hash(alloc, layout, algorithm, content)?;
    }
    Ok(())
}
