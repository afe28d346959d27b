// The archive of the store that is kept.
use mb_store::{MemStore, TileStore};
use pm_format::{MemMedium, TileType};
use pm_writer::PmTilesWriter;
use rows_shared::{said, say, say_bytes};
use std::alloc::Global;
use tile_bridge::{ConvertError, ConvertOptions, convert};
use tile_hash::md5_text;

// How the archive of a store without patches is written, or why it isn't.
fn exported<S: TileStore>(
    alloc: Global,
    store: &mut S,
    medium: &mut MemMedium,
) -> Result<(), ConvertError> {
    let options = ConvertOptions {
        force: false,
        verify: false,
        writer: PmTilesWriter::new(TileType::Unknown),
    };
    let mut patches: Vec<MemStore> = Vec::new(alloc);
    convert(alloc, store, &mut patches, &[], &options, medium)?;
    Ok(())
}

/// How long the archive on a medium is, and the digest of its bytes.
pub fn say_archive(alloc: Global, out: &mut String, medium: &MemMedium) -> Option<()> {
    say(out, &medium.as_bytes().len())?;
    say_bytes(alloc, out, md5_text(medium.as_bytes()).as_slice())
}

/// How long the archive of a store is, and the digest of its bytes.
pub fn answer<S: TileStore>(alloc: Global, out: &mut String, store: &mut S) -> Option<()> {
    let mut medium = MemMedium::new(alloc);
    match exported(alloc, store, &mut medium) {
        Ok(()) => say_archive(alloc, out, &medium),
        Err(error) => said(out, error),
    }
}
