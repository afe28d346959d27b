// The tiles of an archive.
ghost use Rattle.std.specs.Prelude.{◌≡◌, ◌≤◌, ◌+◌, [], Err, IfErr, IfOk, IfSome, OnOk};
ghost use Rattle.tile_import.specs.Common.{all_walked, AllOnBoard, coord_of, header_of, IsOpen, len, MAX_TILE_ID, ReadsOnly, root_of};
ghost use Rattle.tile_import.specs.Import.{ReadCauses, reads_at_most};
ghost use Rattle.pm_walk.specs.Gathered.{HoldsGiven};
ghost use Rattle.tile_import.specs.Reading.{IsTileId, tiles_of};
ghost use Rattle.tile_import.specs.Refusals.{Reads, of_read_error, of_walk_error};

use crate::ImportError;
use crate::tiles::{no_tiles, settle_tiles};
use mb_loaded::Loaded;
use pm_format::{Backend, PmtError};
use pm_reader::ReaderState;
use pm_walk::{TakesEntries, WalkError, take_entries};
use std::alloc::Global;
use tile_ids::{TileCoord, TileId};

/// The import's word for an error of the reader.
pub fn of_reader(error: PmtError) -> ImportError
    ensures { result ≡ of_read_error error }
{
    match error {
        PmtError::OutOfMemory => ImportError::OutOfMemory,
        error => ImportError::Archive(error),
    }
}

/// The coordinate of an id, at most `MAX_TILE_ID`.
pub fn coord_at(id: u64) -> TileCoord
    requires { id ≤ MAX_TILE_ID }
    ensures { result ≡ coord_of id }
{
    let Ok(tile_id) = TileId::new(id) else {
        unreachable!();
    };
    TileCoord::from(tile_id)
}

// The import's word for an error of the walk.
fn of_walk(error: WalkError, max_tiles: u64) -> ImportError
    requires { IsTileId error }
    ensures { result ≡ of_walk_error max_tiles error }
{
    match error {
        WalkError::Archive(error) => of_reader(error),
        WalkError::InvalidTileId(id) => ImportError::InvalidTileId(id),
        WalkError::TooDeep(id) => ImportError::InvalidTileIndex(coord_at(id)),
        WalkError::TooManyTiles => ImportError::TooManyTiles(max_tiles),
    }
}

/// Gives the tile entries of an archive that is open, with their contents, to what takes them. The first test that an
/// entry fails is answered, as `read_archive` says.
pub(crate) fn take_opened<B: Backend, T: TakesEntries + Drop>(
    reader: &ReaderState,
    backend: &mut B,
    taker: T,
    max_tiles: u64,
) -> Result<T, ImportError>
    requires open { IsOpen (B.told backend.old) reader.now }
    requires begun { T.holds taker [] [] }
    ensures given { IfOk result (HoldsGiven T.holds (B.told backend.old) (header_of reader.now)
        (root_of reader.now) max_tiles) }
    ensures refused { IfSome (B.told backend.old)
        (λ b. IfErr result (λ e. Reads max_tiles b (Err e))) }
    ensures causes { IfErr result (ReadCauses max_tiles (B.faults backend.old)
        (B.faults backend.new)) }
    ensures kept { ReadsOnly B.told B.versions B.faults B.steady backend.old backend.new }
    ensures still { OnOk result (B.faults backend.new ≡ B.faults backend.old) }
    ensures reads { IfSome (B.told backend.old) (λ b. B.reads backend.new ≤ B.reads backend.old
        + (all_walked b (header_of reader.now, root_of reader.now)).reads) }
{
    match take_entries(reader, backend, taker, max_tiles) {
        Ok(taker) => Ok(taker),
        Err(error) => Err(of_walk(error, max_tiles)),
    }
}

// The tiles of an archive that is open.
fn read_opened<B: Backend>(
    alloc: Global,
    reader: &ReaderState,
    backend: &mut B,
    max_tiles: u64,
) -> Result<Loaded, ImportError>
    requires { IsOpen (B.told backend.old) reader.now }
    ensures answer { IfSome (B.told backend.old) (λ b. Reads max_tiles b (tiles_of result)) }
    ensures board { IfOk result (λ set. AllOnBoard set.state) }
    ensures few { IfOk result (λ set. len set.state.tiles ≤ max_tiles) }
    ensures causes { IfErr result (ReadCauses max_tiles (B.faults backend.old)
        (B.faults backend.new)) }
    ensures kept { ReadsOnly B.told B.versions B.faults B.steady backend.old backend.new }
    ensures still { OnOk result (B.faults backend.new ≡ B.faults backend.old) }
    ensures reads { IfSome (B.told backend.old) (λ b. B.reads backend.new ≤ B.reads backend.old
        + (all_walked b (header_of reader.now, root_of reader.now)).reads) }
{
    let made = match take_opened(reader, backend, no_tiles(alloc), max_tiles) {
        Ok(made) => made,
        Err(error) => return Err(error),
    };
    match settle_tiles(made) {
        Ok(tiles) => Ok(tiles),
        Err(_) => Err(ImportError::OutOfMemory),
    }
}

/// Opens an archive, walks all of it and makes its tiles of at least one byte as it comes to them, as a flat
/// set of their own, which is let go where the archive is refused. The tiles of a run are made once the limit
/// has room for all of them.
///
/// The first of these that holds is answered: the refusal of opening; at the first entry that fails a test, in
/// order of the directories, the refusal of that test, `TooManyTiles` where the non-empty entries up to this one
/// have more tiles than the limit.
pub(crate) fn read_archive<B: Backend>(
    alloc: Global,
    backend: &mut B,
    max_tiles: u64,
) -> Result<Loaded, ImportError>
    ensures answer { IfSome (B.told backend.old) (λ b. Reads max_tiles b (tiles_of result)) }
    ensures board { IfOk result (λ set. AllOnBoard set.state) }
    ensures few { IfOk result (λ set. len set.state.tiles ≤ max_tiles) }
    ensures causes { IfErr result (ReadCauses max_tiles (B.faults backend.old)
        (B.faults backend.new)) }
    ensures kept { ReadsOnly B.told B.versions B.faults B.steady backend.old backend.new }
    ensures still { OnOk result (B.faults backend.new ≡ B.faults backend.old) }
    ensures reads { IfSome (B.told backend.old) (λ b. B.reads backend.new
        ≤ B.reads backend.old + reads_at_most b) }
{
    let reader = match ReaderState::open(alloc, backend) {
        Ok(reader) => reader,
        Err(error) => return Err(of_reader(error)),
    };
    match read_opened(alloc, &reader, backend, max_tiles) {
        Ok(tiles) => Ok(tiles),
        Err(error) => Err(error),
    }
}
