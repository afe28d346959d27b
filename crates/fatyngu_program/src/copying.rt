// Copies of sets.
use crate::TOOL;
use crate::beside::make_set;
use crate::editing::edit_silently;
use crate::filling::Edit;
use crate::reading::read_set;
use crate::saying::{out_of_memory, refused, refused_patch, usage};
use mb_copy::MbtilesCopier;
use mb_load::load;
use mb_store::{MbtResult, MbtType, MemStore};
use pm_format::status;
use program_words::are_one_file;
use std::alloc::Global;
use std::fs;
use tile_command::{Asked, Subcommand, copier_of, layout_for};
use tile_hash::HashAlgorithm;

// The layout and the algorithm of a set.
fn kind_of(alloc: Global, store: &mut MemStore) -> MbtResult<(MbtType, HashAlgorithm)> {
    let set = load(alloc, store)?;
    Ok((set.mbt_type(), set.algorithm()))
}

// Copies a set that was read into a new file.
fn copy_anew(
    rt: &HostRuntime,
    (from, to): (&str, &str),
    source: MemStore,
    copier: MbtilesCopier,
) -> u8 {
    let mut source = source;
    match kind_of(rt.alloc(), &mut source) {
        Ok((layout, algorithm)) => {
            let layout = layout_for(&copier, layout);
            let algorithm = copier.hash_algorithm.unwrap_or(algorithm);
            make_set(rt, to, layout, Edit::CopyAnew(source, copier, algorithm))
        }
        Err(error) => refused(rt, from, &error),
    }
}

// What a patch makes of a set, in memory.
fn patched(
    alloc: Global,
    (source, patch): (MemStore, MemStore),
    copier: &MbtilesCopier,
) -> MbtResult<MemStore> {
    let (mut source, mut patch) = (source, patch);
    let mut made = MemStore::new(alloc);
    copier.run_with_patch(alloc, &mut source, &mut made, &mut patch)?;
    Ok(made)
}

// A copy of all that a set has.
fn whole_copy(alloc: Global, copier: &MbtilesCopier) -> MbtilesCopier {
    let mut whole = MbtilesCopier::new(alloc);
    whole.skip_agg_tiles_hash = copier.skip_agg_tiles_hash;
    whole
}

// Copies what a patch makes of a set into a new file.
fn copy_patched(
    rt: &HostRuntime,
    (from, patch, to): (&str, &str, &str),
    copier: &MbtilesCopier,
) -> u8 {
    let source = match read_set(rt, from, true) {
        Ok(source) => source,
        Err(status) => return status,
    };
    let brought = match read_set(rt, patch, true) {
        Ok(brought) => brought,
        Err(status) => return status,
    };
    match patched(rt.alloc(), (source, brought), copier) {
        Ok(made) => copy_anew(rt, (from, to), made, whole_copy(rt.alloc(), copier)),
        Err(error) => refused_patch(rt, from, patch, &error),
    }
}

// Copies a set into a file, which is there or not.
fn copy_files(rt: &HostRuntime, (from, to): (&str, &str), copier: MbtilesCopier) -> u8 {
    let is_new = fs::symlink_metadata(rt, to).is_err();
    if !is_new && copier.on_duplicate.is_none() {
        let _ = eprintln!(rt;
            "{TOOL}: {to} is there; --on-duplicate override, ignore or abort copies into it, and says what counts where both have a tile or a name"
        );
        return status::REFUSED;
    }
    match read_set(rt, from, true) {
        Ok(source) if is_new => copy_anew(rt, (from, to), source, copier),
        Ok(source) => edit_silently(rt, to, Edit::Copy(source, copier)),
        Err(status) => status,
    }
}

// Copies a set with a patch, or without.
fn copy_with(
    rt: &HostRuntime,
    (from, to): (&str, &str),
    patch: Option<&str>,
    copier: MbtilesCopier,
) -> u8 {
    let Some(patch) = patch else {
        return copy_files(rt, (from, to), copier);
    };
    if fs::symlink_metadata(rt, to).is_ok() {
        let _ = eprintln!(rt;
            "{TOOL}: {to} is there; what --apply-patch makes goes into a new file"
        );
        return status::REFUSED;
    }
    copy_patched(rt, (from, patch, to), &copier)
}

/// Copies a set, by the words.
pub fn copy(rt: &HostRuntime, asked: &Asked) -> u8 {
    let (from, to) = (asked.word(0), asked.word(1));
    if are_one_file(rt, from, to) {
        let _ = eprintln!(rt;
            "{TOOL}: {from} and {to} are one file; give another name for the copy"
        );
        return status::REFUSED;
    }
    match copier_of(rt.alloc(), asked) {
        Ok(Some(copier)) => copy_with(rt, (from, to), asked.value("--apply-patch"), copier),
        Ok(None) => usage(rt, Subcommand::Copy),
        Err(_) => out_of_memory(rt),
    }
}
