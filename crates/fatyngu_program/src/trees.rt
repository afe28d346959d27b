// Folders of files of tiles.
use crate::TOOL;
use crate::beside::make_set;
use crate::filling::Edit;
use crate::reading::read_set;
use crate::saying::{out_of_memory, refused, usage};
use mb_store::{MbtError, MbtType, MemStore};
use mb_tree::{FolderTree, TileScheme, unpack};
use pm_format::status;
use std::fs;
use std::io::ErrorKind;
use tile_command::{Asked, Subcommand, scheme_of};

// Whether a path leads to a folder, which standard error says where it doesn't.
fn is_folder(rt: &HostRuntime, path: &str) -> bool {
    let _ = match fs::metadata(rt, path) {
        Ok(found) if found.is_dir() => return true,
        Ok(_) => eprintln!(rt; "{TOOL}: {path} is no folder"),
        Err(error) => eprintln!(rt; "{TOOL}: {path}: {error}"),
    };
    false
}

/// Makes a set of the files of a folder.
pub fn pack_folder(rt: &HostRuntime, asked: &Asked) -> u8 {
    let (folder, out) = (asked.word(0), asked.word(1));
    let Some(scheme) = scheme_of(asked.value("--scheme")) else {
        return usage(rt, Subcommand::Pack);
    };
    if !is_folder(rt, folder) {
        return status::NO_INPUT;
    }
    match FolderTree::new(rt, rt.alloc(), folder) {
        Ok(tree) => make_set(rt, out, MbtType::Flat, Edit::Pack(tree, scheme)),
        Err(_) => out_of_memory(rt),
    }
}

// Whether a path has nothing, or a folder without an entry. Standard error says why it isn't taken.
fn is_free(rt: &HostRuntime, path: &str) -> bool {
    let taken = match fs::read_dir(rt, path) {
        Ok(mut entries) => entries.next().is_some(),
        Err(error) => error.kind() != ErrorKind::NotFound,
    };
    if taken {
        let _ = eprintln!(rt; "{TOOL}: {path} is there, and is no empty folder; give another name");
    }
    !taken
}

// Says why a set wasn't unpacked.
fn say_unpacked(rt: &HostRuntime, (path, folder): (&str, &str), error: &MbtError) -> u8 {
    if matches!(error, MbtError::TreeFault) {
        let _ = eprintln!(rt;
            "{TOOL}: {folder} can't be written; the files that were written so far stay there"
        );
        return status::FAULT;
    }
    refused(rt, path, error)
}

// Unpacks a set that was read.
fn unpack_read(
    rt: &HostRuntime,
    (path, folder): (&str, &str),
    store: MemStore,
    scheme: TileScheme,
) -> u8 {
    let mut store = store;
    let Ok(mut tree) = FolderTree::new(rt, rt.alloc(), folder) else {
        return out_of_memory(rt);
    };
    match unpack(rt.alloc(), &mut store, &mut tree, scheme) {
        Ok(()) => status::DONE,
        Err(error) => say_unpacked(rt, (path, folder), &error),
    }
}

/// Writes the tiles of a set into a folder.
pub fn unpack_set(rt: &HostRuntime, asked: &Asked) -> u8 {
    let (path, folder) = (asked.word(0), asked.word(1));
    let Some(scheme) = scheme_of(asked.value("--scheme")) else {
        return usage(rt, Subcommand::Unpack);
    };
    if !is_free(rt, folder) {
        return status::REFUSED;
    }
    match read_set(rt, path, true) {
        Ok(store) => unpack_read(rt, (path, folder), store, scheme),
        Err(status) => status,
    }
}
