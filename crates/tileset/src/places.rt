// The lines of the command bulk.
ghost use Rattle.std.specs.Prelude.{◌≡◌, true, false, IfOk, string_bytes};
ghost use Rattle.tileset.specs.Places.{count_lines, data_lines, directory_lines, places_text};

use base_values::OutOfMemory;
use pm_writer::ArchivePlaces;
use std::alloc::Global;

// What an archive counts, and how long it is.
fn count_lines(alloc: Global, places: &ArchivePlaces) -> Result<String, OutOfMemory>
    ensures { IfOk result (λ text. string_bytes text ≡ count_lines places.now) }
{
    let (addressed, entries, contents, length) = (
        places.addressed,
        places.entries,
        places.contents,
        places.length,
    );
    Ok(format!(in alloc;
        "addressed {addressed}\nentries {entries}\ncontents {contents}\nlength {length}\n"
    )?)
}

// The directories of an archive.
fn directory_lines(alloc: Global, places: &ArchivePlaces) -> Result<String, OutOfMemory>
    ensures { IfOk result (λ text. string_bytes text ≡ directory_lines false places.now) }
{
    let (root, leaves, offset, length) = (
        places.root_length,
        places.leaves,
        places.leaf_offset,
        places.leaf_length,
    );
    Ok(format!(in alloc;
        "root {root}\nleaves {leaves}\nleaf-offset {offset}\nleaf-length {length}\n"
    )?)
}

// The directories of an archive, the upper ones too.
fn all_directory_lines(alloc: Global, places: &ArchivePlaces) -> Result<String, OutOfMemory>
    ensures { IfOk result (λ text. string_bytes text ≡ directory_lines true places.now) }
{
    let (root, leaves, uppers) = (places.root_length, places.leaves, places.uppers);
    let (offset, length) = (places.leaf_offset, places.leaf_length);
    Ok(format!(in alloc;
        "root {root}\nleaves {leaves}\nuppers {uppers}\nleaf-offset {offset}\nleaf-length {length}\n"
    )?)
}

// The contents of the tiles of an archive.
fn data_lines(alloc: Global, places: &ArchivePlaces) -> Result<String, OutOfMemory>
    ensures { IfOk result (λ text. string_bytes text ≡ data_lines places.now) }
{
    let (offset, length) = (places.data_offset, places.data_length);
    Ok(format!(in alloc; "data-offset {offset}\ndata-length {length}\n")?)
}

/// What an archive counts and where its parts lie, ten lines, and one more where the number of upper directories is
/// wanted. Places and lengths are in bytes.
pub(crate) fn places_text(
    alloc: Global,
    places: &ArchivePlaces,
    uppers: bool,
) -> Result<String, OutOfMemory>
    ensures { IfOk result (λ text. string_bytes text ≡ places_text uppers places.now) }
{
    let mut text = count_lines(alloc, places)?;
    let directories = if uppers {
        all_directory_lines(alloc, places)?
    } else {
        directory_lines(alloc, places)?
    };
    text.push_str(directories.as_str())?;
    text.push_str(data_lines(alloc, places)?.as_str())?;
    Ok(text)
}
