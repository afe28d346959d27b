// What a server owns, and how it answers a line.
ghost use Rattle.std.specs.Prelude.{◌≡◌, true, false, [], length, Some, None, IfOk, IfErr, IfSome, OnOk, OnErr};
ghost use Rattle.tile_serve.specs.Common.{archive_tile, bounded, Grew, GrewBetween, HasVersionOf, IsOpen, IsWithin, opened, ReadsByHops, ReadsOnly, weight_of};
ghost use Rattle.tile_serve.specs.Answers.{Answers, Causes, Compares, Finds, HasTexts, IsReadFor, IsThere, IsUniform, IsUnmodified, IsWanting, LeavesTiles, OpeningCauses, OverOneLength, ReadsFor, RefusesOpening, opening_error};
ghost use Rattle.tile_serve.specs.Limits.{IsLimits};
ghost use Rattle.tile_serve.specs.Request.{request_of};
ghost use Rattle.tile_serve.specs.State.{IsServing, KeepsBounds, KeepsDirectories, directories_of, opened_as, tiles_of};
ghost use Rattle.tile_serve.specs.Tiles.{LeavesFound, is_held, is_read, with_found};
ghost use Rattle.tile_serve.specs.Faults.{FaultsStand};

use crate::found::{Found, found_of};
use crate::reply::{plain_text, text_for};
use crate::request::parse_request;
use crate::tiles::TileCache;
use crate::{ServeError, ServeLimits};
use base_values::{BlobVal, OutOfMemory};
use pm_format::{Backend, PmtError};
use pm_reader::{LruDirCache, ReaderState};
use std::alloc::Global;
use tile_ids::TileId;

/// What a server owns beside the backend: the reader's state, and the directories and tiles that it holds.
#[derive(Drop)]
pub struct ServerState {
    pub(crate) alloc: Global,
    pub(crate) reader: ReaderState,
    pub(crate) directories: LruDirCache,
    pub(crate) tiles: TileCache,
}

// The reader of an archive, which is opened by one read.
fn open_reader<B: Backend>(alloc: Global, backend: &mut B) -> Result<ReaderState, ServeError>
    ensures refused { IfErr result
        (λ e. IfSome (B.told backend.old) (λ b. RefusesOpening (opened b) e)) }
    ensures open { IfOk result (λ s. IsOpen (B.told backend.new) s) }
    ensures causes { IfErr result (OpeningCauses (B.faults backend.old) (B.faults backend.new)) }
    ensures still { FaultsStand (B.faults backend.old) (B.faults backend.new) result }
    ensures version { IfOk result
        (λ s. HasVersionOf (B.versions backend.new) (B.reads backend.new) s) }
    ensures kept { ReadsOnly B.told B.versions B.faults B.steady backend.old backend.new }
    ensures reads { Grew (B.reads backend.old) (B.reads backend.new) 1 }
{
    match ReaderState::open(alloc, backend) {
        Ok(reader) => Ok(reader),
        Err(error) => Err(refused_opening(error)),
    }
}

// Why an archive doesn't open.
fn refused_opening(error: PmtError) -> ServeError
    ensures { result ≡ opening_error error }
{
    match error {
        PmtError::OutOfMemory => ServeError::OutOfMemory,
        refusal => ServeError::Opening(refusal),
    }
}

impl ServerState {
    // A server that holds nothing yet.
    fn with_limits(
        alloc: Global,
        reader: ReaderState,
        limits: ServeLimits,
    ) -> Result<ServerState, OutOfMemory>
        requires { IsLimits limits }
        ensures reader { IfOk result (λ s. s.reader ≡ reader) }
        ensures directories { IfOk result
            (λ s. directories_of s
            ≡ bounded [] limits.directories (Some limits.directory_entries)) }
        ensures tiles { IfOk result
            (λ s. tiles_of s ≡ bounded [] limits.tiles (Some limits.tile_bytes)) }
    {
        let ServeLimits {
            directories,
            directory_entries,
            tiles,
            tile_bytes,
        } = limits;
        Ok(ServerState {
            alloc,
            reader,
            directories: LruDirCache::with_entry_limit(alloc, directories, directory_entries)?,
            tiles: TileCache::new(alloc, tiles, tile_bytes)?,
        })
    }

    /// Opens the archive of a backend, without borrowing it any longer: one read. The limits are to
    /// allow a directory and a tile.
    ///
    /// `Opening` is the first refusal of opening, as `ReaderState::open` gives it; a fault in it comes only where the
    /// backend's count of faults rose.
    pub fn open<B: Backend>(
        alloc: Global,
        backend: &mut B,
        limits: ServeLimits,
    ) -> Result<ServerState, ServeError>
        requires limits { IsLimits limits }
        ensures refused { IfErr result
            (λ e. IfSome (B.told backend.old) (λ b. RefusesOpening (opened b) e)) }
        ensures causes { IfErr result
            (OpeningCauses (B.faults backend.old) (B.faults backend.new)) }
        ensures still { FaultsStand (B.faults backend.old) (B.faults backend.new) result }
        ensures serving { IfOk result
            (λ s. IsServing (B.told backend.new) (B.versions backend.new) s) }
        ensures version { IfOk result
            (λ s. IfSome (B.versions backend.new)
            (λ text. opened_as s ≡ text (B.reads backend.new))) }
        ensures tiles { IfOk result
            (λ s. tiles_of s ≡ bounded [] limits.tiles (Some limits.tile_bytes)) }
        ensures directories { IfOk result
            (λ s. directories_of s
            ≡ bounded [] limits.directories (Some limits.directory_entries)) }
        ensures kept { ReadsOnly B.told B.versions B.faults B.steady backend.old backend.new }
        ensures reads { Grew (B.reads backend.old) (B.reads backend.new) 1 }
    {
        let reader = open_reader(alloc, backend)?;
        Ok(ServerState::with_limits(alloc, reader, limits)?)
    }

    // What the archive has for an id.
    fn fetch<B: Backend>(&mut self, backend: &mut B, id: TileId) -> Result<Found, ServeError>
        requires serving { IsServing (B.told backend.old) (B.versions backend.old) self.old }
        ensures serving { IsServing (B.told backend.new) (B.versions backend.new) self.new }
        ensures finds { OverOneLength (B.told backend.old) (λ b. Finds (archive_tile b id) result) }
        ensures compares { OverOneLength (B.told backend.old)
            (λ b. Compares (opened_as self.old) (B.versions backend.new) (B.reads backend.new)
            (IsThere (archive_tile b id)) result) }
        ensures hops { OverOneLength (B.told backend.old)
            (λ b. ReadsByHops b id (B.reads backend.old) (B.reads backend.new)) }
        ensures texts { HasTexts (opened_as self.old) (B.versions backend.new)
            (B.reads backend.new) result }
        ensures causes { Causes (B.told backend.old) (B.faults backend.old) (B.faults backend.new)
            result }
        ensures still { FaultsStand (B.faults backend.old) (B.faults backend.new) result }
        ensures same { opened_as self.new ≡ opened_as self.old }
        ensures directories { KeepsDirectories self.old self.new }
        ensures tiles { tiles_of self.new ≡ tiles_of self.old }
        ensures kept { ReadsOnly B.told B.versions B.faults B.steady backend.old backend.new }
        ensures reads { GrewBetween (B.reads backend.old) (B.reads backend.new) 0 7 }
    {
        let read = self
            .reader
            .get_unmodified_tile(backend, &mut self.directories, id);
        found_of(read)
    }

    // The same of an id whose tile isn't held. A tile is kept.
    fn fetch_and_keep<B: Backend>(
        &mut self,
        backend: &mut B,
        id: TileId,
    ) -> Result<Found, ServeError>
        requires serving { IsServing (B.told backend.old) (B.versions backend.old) self.old }
        ensures serving { IsServing (B.told backend.new) (B.versions backend.new) self.new }
        ensures finds { OverOneLength (B.told backend.old) (λ b. Finds (archive_tile b id) result) }
        ensures compares { OverOneLength (B.told backend.old)
            (λ b. Compares (opened_as self.old) (B.versions backend.new) (B.reads backend.new)
            (IsThere (archive_tile b id)) result) }
        ensures hops { OverOneLength (B.told backend.old)
            (λ b. ReadsByHops b id (B.reads backend.old) (B.reads backend.new)) }
        ensures texts { HasTexts (opened_as self.old) (B.versions backend.new)
            (B.reads backend.new) result }
        ensures causes { Causes (B.told backend.old) (B.faults backend.old) (B.faults backend.new)
            result }
        ensures still { FaultsStand (B.faults backend.old) (B.faults backend.new) result }
        ensures same { opened_as self.new ≡ opened_as self.old }
        ensures directories { KeepsDirectories self.old self.new }
        ensures tiles { IfOk result
            (λ found. tiles_of self.new ≡ with_found (tiles_of self.old) id found) }
        ensures err { OnErr result (tiles_of self.new ≡ tiles_of self.old) }
        ensures kept { ReadsOnly B.told B.versions B.faults B.steady backend.old backend.new }
        ensures reads { GrewBetween (B.reads backend.old) (B.reads backend.new) 0 7 }
    {
        let found = self.fetch(backend, id)?;
        self.keep(id, &found)?;
        Ok(found)
    }

    // Keeps a tile that was found.
    fn keep(&mut self, id: TileId, found: &Found) -> Result<(), OutOfMemory>
        ensures ok { OnOk result (tiles_of self.new ≡ with_found (tiles_of self.old) id found.now) }
        ensures err { OnErr result (tiles_of self.new ≡ tiles_of self.old) }
        ensures within { IsWithin length (tiles_of self.old) → IsWithin length (tiles_of self.new) }
        ensures reader { self.new.reader ≡ self.old.reader }
        ensures directories { self.new.directories ≡ self.old.directories }
    {
        if let Found::Tile(bytes) = found {
            let copy = bytes.clone()?;
            self.tiles.put(id, copy)?;
        }
        Ok(())
    }

    // What the archive has for an id: the tile that is held, which becomes the latest used, or what is read.
    fn find<B: Backend>(&mut self, backend: &mut B, id: TileId) -> Result<Found, ServeError>
        requires serving { IsServing (B.told backend.old) (B.versions backend.old) self.old }
        ensures serving { IsServing (B.told backend.new) (B.versions backend.new) self.new }
        ensures finds { OverOneLength (B.told backend.old) (λ b. Finds (archive_tile b id) result) }
        ensures compares { OverOneLength (B.told backend.old)
            (λ b. Compares (opened_as self.old) (B.versions backend.new) (B.reads backend.new)
            ((is_held (tiles_of self.old) id ≡ false) × IsThere (archive_tile b id)) result) }
        ensures hops { OverOneLength (B.told backend.old)
            (λ b. ReadsByHops b id (B.reads backend.old) (B.reads backend.new)) }
        ensures untouched { is_held (tiles_of self.old) id ≡ true → backend.new ≡ backend.old }
        ensures texts { HasTexts (opened_as self.old) (B.versions backend.new)
            (B.reads backend.new) result }
        ensures causes { Causes (B.told backend.old) (B.faults backend.old) (B.faults backend.new)
            result }
        ensures still { FaultsStand (B.faults backend.old) (B.faults backend.new) result }
        ensures same { opened_as self.new ≡ opened_as self.old }
        ensures held { is_held (tiles_of self.old) id ≡ true → IsWanting result }
        ensures directories { KeepsDirectories self.old self.new }
        ensures tiles { LeavesFound (tiles_of self.old) (tiles_of self.new) id result }
        ensures kept { ReadsOnly B.told B.versions B.faults B.steady backend.old backend.new }
        ensures reads { GrewBetween (B.reads backend.old) (B.reads backend.new) 0 7 }
    {
        match self.tiles.get(id)? {
            Some(bytes) => Ok(Found::Tile(bytes)),
            None => self.fetch_and_keep(backend, id),
        }
    }

    /// The reply to a line, which has no line feed: `400` for one that is no request; else `404` where there is no
    /// entry or no byte, `500` and `InvalidEntry` or `PastEnd` where a leaf doesn't decode or a range passes the end,
    /// `304` and the tag where the line has it, and `200`, the tag and the bytes in hexadecimal where not. The backend
    /// is to be the one that was opened.
    ///
    /// `Fault` comes only where the backend's count of faults rose, `Modified` in place of a tile that is there, where
    /// the opening and the last read both gave version texts and they differ, and `Short` only over a backend that
    /// tells no bytes. After an error later lines are answered as before.
    pub fn answer<B: Backend>(
        &mut self,
        backend: &mut B,
        line: &[u8],
    ) -> Result<BlobVal, ServeError>
        requires serving { IsServing (B.told backend.old) (B.versions backend.old) self.old }
        ensures serving { IsServing (B.told backend.new) (B.versions backend.new) self.new }
        ensures answer { OverOneLength (B.told backend.old) (λ b. Answers b line.now result) }
        ensures compares { OverOneLength (B.told backend.old)
            (λ b. Compares (opened_as self.old) (B.versions backend.new) (B.reads backend.new)
            (IsReadFor b (request_of line.now) (tiles_of self.old)) result) }
        ensures hops { OverOneLength (B.told backend.old)
            (λ b. ReadsFor b (request_of line.now) (B.reads backend.old) (B.reads backend.new)) }
        ensures tiles { OverOneLength (B.told backend.old)
            (λ b. LeavesTiles b (request_of line.now) (tiles_of self.old) (tiles_of self.new)
            result) }
        ensures untouched { is_read (request_of line.now) (tiles_of self.old) ≡ false
            → backend.new ≡ backend.old }
        ensures unmodified { IsUniform (B.versions backend.old) → IsUnmodified result }
        ensures texts { HasTexts (opened_as self.old) (B.versions backend.new)
            (B.reads backend.new) result }
        ensures causes { Causes (B.told backend.old) (B.faults backend.old) (B.faults backend.new)
            result }
        ensures still { FaultsStand (B.faults backend.old) (B.faults backend.new) result }
        ensures same { opened_as self.new ≡ opened_as self.old }
        ensures asked { is_read (request_of line.now) (tiles_of self.old) ≡ false
            → IsWanting result }
        ensures bounds { KeepsBounds self.old self.new }
        ensures directories { KeepsDirectories self.old self.new }
        ensures kept { ReadsOnly B.told B.versions B.faults B.steady backend.old backend.new }
        ensures reads { GrewBetween (B.reads backend.old) (B.reads backend.new) 0 7 }
    {
        let Some((id, tag)) = parse_request(line) else {
            return Ok(plain_text(self.alloc, "400\n")?);
        };
        let found = self.find(backend, id)?;
        Ok(text_for(self.alloc, &found, tag)?)
    }

    /// How many bytes the tiles have together that are held.
    pub fn held_tile_bytes(&self) -> u64
        ensures sum { result ≡ weight_of length (tiles_of self.now).pairs }
        ensures within { IsWithin length (tiles_of self.now) }
    {
        self.tiles.held_bytes()
    }
}
