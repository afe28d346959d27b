// What is done to a set in a database file that nobody else has.
use base_values::TextVal;
use mb_check::update_agg_tiles_hash;
use mb_copy::{CopyDuplicateMode, MbtilesCopier};
use mb_edit::apply_patch;
use mb_metadata::{delete_metadata_value, set_metadata_value};
use mb_sqlite::SqliteStore;
use mb_store::{HASH_ALGORITHM, MbtError, MbtResult, MbtType, MemStore, TileStore};
use mb_tree::{FolderTree, TileScheme, pack};
use sqlite::{Connection, Error, ErrorCode};
use std::alloc::Global;
use std::fs::File;
use std::io;
use std::io::{Seek, SeekFrom, Write};
use tile_hash::HashAlgorithm;

/// What is done to a set.
#[derive(Drop)]
pub enum Edit {
    /// A text is put under a name.
    Put(TextVal, TextVal),
    /// A name is removed.
    Remove(TextVal),
    /// The hash of all tiles is stored.
    StoreHash,
    /// A patch is put on it, whatever its hashes or not.
    Patch(MemStore, bool),
    /// Another set is copied into it.
    Copy(MemStore, MbtilesCopier),
    /// The same with a set that has nothing yet, whose digests are by an algorithm.
    CopyAnew(MemStore, MbtilesCopier, HashAlgorithm),
    /// The files of a folder are packed into it.
    Pack(FolderTree, TileScheme),
}

/// Why it isn't done.
#[derive(Drop)]
pub enum Unfilled {
    /// The call on the set is refused.
    Set(MbtError),
    /// The database doesn't open or close.
    Database(Error),
    /// The file can't be written.
    File(io::Error),
}

// Copies a set into one that has nothing yet.
fn copy_anew<S: TileStore>(
    alloc: Global,
    source: MemStore,
    copier: MbtilesCopier,
    algorithm: HashAlgorithm,
    store: &mut S,
) -> MbtResult<()> {
    let (mut source, mut copier) = (source, copier);
    copier.on_duplicate = match copier.on_duplicate {
        Some(mode) => Some(mode),
        None => Some(CopyDuplicateMode::Override),
    };
    set_metadata_value(alloc, store, HASH_ALGORITHM, algorithm.as_str())?;
    copier.run(alloc, &mut source, store)
}

// Does the edits that bring another set or files.
fn bring<S: TileStore>(alloc: Global, edit: Edit, store: &mut S) -> MbtResult<()> {
    match edit {
        Edit::Patch(patch, force) => {
            let mut patch = patch;
            apply_patch(alloc, store, &mut patch, force)
        }
        Edit::Copy(source, copier) => {
            let mut source = source;
            copier.run(alloc, &mut source, store)
        }
        Edit::CopyAnew(source, copier, algorithm) => {
            copy_anew(alloc, source, copier, algorithm, store)
        }
        Edit::Pack(tree, scheme) => {
            let mut tree = tree;
            pack(alloc, &mut tree, store, scheme)
        }
        _ => Ok(()),
    }
}

// Does an edit to a set. It gives the hash that was stored, and else no text.
fn apply<S: TileStore>(alloc: Global, edit: Edit, store: &mut S) -> MbtResult<TextVal> {
    match edit {
        Edit::StoreHash => return update_agg_tiles_hash(alloc, store),
        Edit::Put(name, value) => set_metadata_value(alloc, store, name.as_str(), value.as_str())?,
        Edit::Remove(name) => delete_metadata_value(alloc, store, name.as_str())?,
        other => bring(alloc, other, store)?,
    }
    Ok(TextVal::new(String::new(alloc)))
}

/// Which journal a database has, by two bytes of its header (SQLite's file format, bytes 18 and 19): 1 for one that
/// is rolled back, 2 for a log.
pub type Journal = [u8; 2];

/// The journal of a new database: none is left beside it, so that it is read where nothing can be written.
pub const ROLLED_BACK: Journal = [1, 1];

// Says in the header of a closed database which journal it has.
fn write_journal(rt: &HostRuntime, path: &str, journal: Journal) -> io::Result<()> {
    let mut file = File::options().read(true).write(true).open(rt, path)?;
    file.seek(SeekFrom::Start(18))?;
    file.write_all(&journal)?;
    file.sync_all()
}

// Closes a database once its log is in it.
fn close(
    rt: &HostRuntime,
    path: &str,
    store: SqliteStore<sqlite::FileStore<sqlite::File>>,
    journal: Journal,
) -> Result<(), Unfilled> {
    if let Err(error) = store.into_connection().close() {
        return Err(Unfilled::Database(error));
    }
    match write_journal(rt, path, journal) {
        Ok(()) => Ok(()),
        Err(error) => Err(Unfilled::File(error)),
    }
}

/// Does an edit to the set of a layout in a database file, which is made where it is empty. It gives the hash that
/// was stored, and else no text.
pub fn fill(
    rt: &HostRuntime,
    path: &str,
    layout: MbtType,
    edit: Edit,
    journal: Journal,
) -> Result<TextVal, Unfilled> {
    let connection = match Connection::open(rt, path) {
        Ok(connection) => connection,
        Err(error) => return Err(Unfilled::Database(error)),
    };
    let mut store = SqliteStore::adopt(rt.alloc(), connection, layout);
    match apply(rt.alloc(), edit, &mut store) {
        Ok(hash) => match close(rt, path, store, journal) {
            Ok(()) => Ok(hash),
            Err(error) => Err(error),
        },
        Err(error) => Err(Unfilled::Set(error)),
    }
}

/// Whether memory ran out for it.
pub fn is_of_memory(error: &Unfilled) -> bool {
    matches!(
        error,
        Unfilled::Set(MbtError::OutOfMemory)
            | Unfilled::Database(Error::SqliteFailure(ErrorCode::OutOfMemory))
    )
}
