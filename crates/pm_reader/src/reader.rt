// A reader that borrows its backend, and holds a cache of directories.
ghost use Rattle.std.specs.Prelude.{◌≡◌, ◌≢◌, ◌<◌, ◌-◌, ◌^◌, ℕ, None, Err, false, IfSome, IfOk, IfErr};
ghost use Rattle.pm_reader.specs.Common.{archive_tile, Grew, RestsIfErr, sem, FaultsStand};
ghost use Rattle.pm_format.specs.declared.error.PmtError.TheVariants as errors;
ghost use Rattle.pm_format.specs.declared.error.ReadCause.TheVariants as causes;
ghost use Rattle.pm_reader.specs.Answers.{Gives, IsWhole, LookUpCauses};
ghost use Rattle.pm_reader.specs.Archives.{IsCacheable, ReadsByHops};
ghost use Rattle.pm_reader.specs.Caches.{CacheLimits};
ghost use Rattle.pm_reader.specs.Opening.{HasVersionOf, IsOpen, IsOpenFailure, OpenAnswers, OpenCauses, header_of, root_of, version_of};
ghost use Rattle.pm_reader.specs.Reads.{GrewBetween, ReadsOnly, reads_for};
ghost use Rattle.pm_reader.specs.Refused.{LeftByOpening};
ghost use Rattle.pm_reader.specs.Tied.{IsTied};
ghost use Rattle.pm_reader.specs.Walk.{walk};
ghost use Rattle.pm_reader.specs.WalkSteps.{budget_of, has_ended, left_of};
ghost use Rattle.pm_reader.specs.Versions.{ComparesTexts, GivesUnmodified, PlainCauses, UnmodifiedCauses, plain};

use crate::tiles::require_plain;
use crate::{DirectoryCache, Entries, NoCache, ReaderState};
use bytes::Bytes;
use pm_format::{Backend, Directory, Header, PmtResult};
use std::alloc::Global;
use tile_ids::TileId;

/// An archive that is being read, with a cache of its directories.
pub struct PmTilesReader<'a, B: Backend, C: DirectoryCache, S = ReaderState> {
    pub(crate) backend: &'a mut B,
    pub(crate) cache: C,
    pub(crate) state: S,
}

// What is let go leaves the backend as it is.
impl<B: Backend, C: DirectoryCache + Drop, S: Drop> Drop for PmTilesReader<'_, B, C, S> {
    fn drop(self)
        ensures same { self.exit.0.now ≡ self.entry.backend.now }
    {
        let PmTilesReader {
            backend: _,
            cache: _,
            state: _,
        } = self;
    }
}

impl<'a, B: Backend> PmTilesReader<'a, B, NoCache> {
    /// Opens the archive of a backend, to be read without a cache: `ReaderState::open`, and then `PmTilesReader::over`.
    ///
    /// An error is one that `open` answers: over told bytes exactly their first refusal, running out of memory, or
    /// `Reading(Fault)`, which doesn't come over a backend whose calls don't fail. After an error the backend was read
    /// once, and tells the bytes and version texts that it told; its count of faults didn't fall, and rose where
    /// `Reading(Fault)` came (`rests`). Whoever needs this for a proof calls `open`.
    pub fn try_from_source(alloc: Global, backend: &'a mut B) -> PmtResult<Self>
        ensures* rests { sem 𝓛 (RestsIfErr B.row backend.entry
            (λ r. r.backend.ghost_name) result
            (LeftByOpening B.told B.versions B.faults B.reads B.steady backend.old result)) }
        ensures refused { IfErr result
            (λ e. IfSome (B.told backend.old) (λ b. OpenAnswers b (Err e))) }
        ensures causes { IfErr result IsOpenFailure }
        ensures unfailing { B.steady backend.old → B.faults backend.old < 2 ^ 64 - 1
            → result ≢ Err (errors.Reading causes.Fault) }
        ensures same_reference { IfOk result
            (λ r. r.backend.ghost_name ≡ backend.entry.ghost_name) }
        ensures tied { IfOk result
            (λ r. IsTied B.told ⟦<NoCache as DirectoryCache>⟧.held
            ⟦<NoCache as DirectoryCache>⟧.idle r) }
        ensures open { IfOk result (λ r. IsOpen (B.told backend.old) r.state) }
        ensures version { IfOk result
            (λ r. HasVersionOf (B.versions r.backend.now) (B.reads r.backend.now) r.state) }
        ensures still { IfOk result (λ r. B.faults r.backend.now ≡ B.faults backend.old) }
        ensures kept { IfOk result
            (λ r. ReadsOnly B.told B.versions B.faults B.steady backend.old r.backend.now) }
        ensures reads { IfOk result (λ r. Grew (B.reads backend.old) (B.reads r.backend.now) 1) }
    {
        match ReaderState::open(alloc, backend) {
            Ok(state) => Ok(PmTilesReader {
                backend,
                cache: NoCache,
                state,
            }),
            Err(error) => Err(error),
        }
    }
}

impl<'a, B: Backend, C: DirectoryCache> PmTilesReader<'a, B, C> {
    /// The reader with this state over this backend, which was opened by it. The cache is to hold nothing.
    pub fn over(backend: &'a mut B, cache: C, state: ReaderState) -> PmTilesReader<'a, B, C>
        requires open { IsOpen (B.told backend.old) state }
        requires empty { (o : ℕ) → C.held cache o ≡ None }
        ensures same_reference { result.backend.ghost_name ≡ backend.entry.ghost_name }
        ensures tied { IsTied B.told C.held C.idle result }
        ensures same { result.backend.now ≡ backend.old }
        ensures cache { result.cache ≡ cache }
        ensures state { result.state ≡ state }
    {
        PmTilesReader {
            backend,
            cache,
            state,
        }
    }

    /// Opens the archive of a backend, to be read with this cache, which is to hold nothing:
    /// `ReaderState::open`, and then `over`.
    ///
    /// An error is one that `open` answers: over told bytes exactly their first refusal, running out of memory, or
    /// `Reading(Fault)`, which doesn't come over a backend whose calls don't fail. After an error the backend was read
    /// once, and tells the bytes and version texts that it told; its count of faults didn't fall, and rose where
    /// `Reading(Fault)` came (`rests`). Whoever needs this for a proof calls `open`.
    pub fn try_from_cached_source(alloc: Global, backend: &'a mut B, cache: C) -> PmtResult<Self>
    where
        C: Drop,
        requires empty { (o : ℕ) → C.held cache o ≡ None }
        ensures* rests { sem 𝓛 (RestsIfErr B.row backend.entry
            (λ r. r.backend.ghost_name) result
            (LeftByOpening B.told B.versions B.faults B.reads B.steady backend.old result)) }
        ensures refused { IfErr result
            (λ e. IfSome (B.told backend.old) (λ b. OpenAnswers b (Err e))) }
        ensures causes { IfErr result IsOpenFailure }
        ensures unfailing { B.steady backend.old → B.faults backend.old < 2 ^ 64 - 1
            → result ≢ Err (errors.Reading causes.Fault) }
        ensures same_reference { IfOk result
            (λ r. r.backend.ghost_name ≡ backend.entry.ghost_name) }
        ensures tied { IfOk result (λ r. IsTied B.told C.held C.idle r) }
        ensures open { IfOk result (λ r. IsOpen (B.told backend.old) r.state) }
        ensures cache { IfOk result (λ r. r.cache ≡ cache) }
        ensures version { IfOk result
            (λ r. HasVersionOf (B.versions r.backend.now) (B.reads r.backend.now) r.state) }
        ensures still { IfOk result (λ r. B.faults r.backend.now ≡ B.faults backend.old) }
        ensures kept { IfOk result
            (λ r. ReadsOnly B.told B.versions B.faults B.steady backend.old r.backend.now) }
        ensures reads { IfOk result (λ r. Grew (B.reads backend.old) (B.reads r.backend.now) 1) }
    {
        match open_with(alloc, backend, cache) {
            Ok(opened) => Ok(PmTilesReader {
                backend,
                cache: opened.0,
                state: opened.1,
            }),
            Err(error) => Err(error),
        }
    }

    /// The header of the archive.
    pub fn get_header(&self) -> &Header
        ensures { result.now ≡ header_of self.now.state }
    {
        self.state.get_header()
    }

    /// The entries of the root, in order of ids.
    pub fn root(&self) -> &Directory
        ensures { result.now ≡ root_of self.now.state }
    {
        self.state.root()
    }

    /// The contents of a tile; none where there is none. Refusals are those of `ReaderState::get_tile_unversioned`.
    /// Version texts aren't compared.
    pub fn get_tile_unversioned(&mut self, tile_id: TileId) -> PmtResult<Option<Bytes>>
        requires tied { IsTied B.told C.held C.idle self.old }
        ensures tied { IsTied B.told C.held C.idle self.new }
        ensures same_reference { self.new.backend.ghost_name ≡ self.old.backend.ghost_name }
        ensures state { self.new.state ≡ self.old.state }
        ensures answer { IfSome (B.told self.old.backend.now)
            (λ b. IsCacheable b (C.idle self.old.cache) → Gives (archive_tile b tile_id) result) }
        ensures hops { IfSome (B.told self.old.backend.now)
            (λ b. IsCacheable b (C.idle self.old.cache)
            → ReadsByHops b tile_id (B.reads self.old.backend.now) (B.reads self.new.backend.now)) }
        ensures idle { C.idle self.old.cache → C.idle self.new.cache }
        ensures limits { (l : CacheLimits) → C.keeps_to self.old.cache l
            → C.keeps_to self.new.cache l }
        ensures causes { LookUpCauses (B.faults self.old.backend.now)
            (B.faults self.new.backend.now) result }
        ensures still { FaultsStand (B.faults self.old.backend.now)
            (B.faults self.new.backend.now) result }
        ensures whole { IfSome (B.told self.old.backend.now) (λ _. IsWhole result) }
        ensures kept { ReadsOnly B.told B.versions B.faults B.steady self.old.backend.now
            self.new.backend.now }
        ensures reads { GrewBetween (B.reads self.old.backend.now) (B.reads self.new.backend.now)
            (reads_for result) 7 }
    {
        self.state
            .get_cached_tile(self.backend, &mut self.cache, tile_id)
    }

    /// The contents of a tile, as `get_tile_unversioned` gives them, and `SourceModified` in place of a tile with the
    /// version text of the opening and that of this read. Where the backend tells its texts, this refusal comes for a
    /// tile exactly where both were given and differ.
    pub fn get_tile(&mut self, tile_id: TileId) -> PmtResult<Option<Bytes>>
        requires tied { IsTied B.told C.held C.idle self.old }
        ensures tied { IsTied B.told C.held C.idle self.new }
        ensures same_reference { self.new.backend.ghost_name ≡ self.old.backend.ghost_name }
        ensures state { self.new.state ≡ self.old.state }
        ensures answer { IfSome (B.told self.old.backend.now)
            (λ b. IsCacheable b (C.idle self.old.cache)
            → GivesUnmodified (archive_tile b tile_id) (archive_tile b tile_id) result) }
        ensures text { ComparesTexts (version_of self.new.state) (B.versions self.new.backend.now)
            (B.reads self.new.backend.now) result }
        ensures causes { UnmodifiedCauses (B.faults self.old.backend.now)
            (B.faults self.new.backend.now) result }
        ensures still { FaultsStand (B.faults self.old.backend.now)
            (B.faults self.new.backend.now) result }
        ensures whole { IfSome (B.told self.old.backend.now) (λ _. IsWhole result) }
        ensures hops { IfSome (B.told self.old.backend.now)
            (λ b. IsCacheable b (C.idle self.old.cache)
            → ReadsByHops b tile_id (B.reads self.old.backend.now) (B.reads self.new.backend.now)) }
        ensures idle { C.idle self.old.cache → C.idle self.new.cache }
        ensures limits { (l : CacheLimits) → C.keeps_to self.old.cache l
            → C.keeps_to self.new.cache l }
        ensures kept { ReadsOnly B.told B.versions B.faults B.steady self.old.backend.now
            self.new.backend.now }
        ensures reads { GrewBetween (B.reads self.old.backend.now) (B.reads self.new.backend.now)
            (reads_for result) 7 }
    {
        self.state
            .get_unmodified_tile(self.backend, &mut self.cache, tile_id)
    }

    /// The same, and `UnsupportedCompression` for a found tile exactly where tiles aren't labelled `None`.
    pub fn get_tile_decompressed(&mut self, tile_id: TileId) -> PmtResult<Option<Bytes>>
        requires tied { IsTied B.told C.held C.idle self.old }
        ensures tied { IsTied B.told C.held C.idle self.new }
        ensures same_reference { self.new.backend.ghost_name ≡ self.old.backend.ghost_name }
        ensures state { self.new.state ≡ self.old.state }
        ensures answer { IfSome (B.told self.old.backend.now)
            (λ b. IsCacheable b (C.idle self.old.cache)
            → GivesUnmodified (archive_tile b tile_id)
            (plain (header_of self.new.state).tile_compression (archive_tile b tile_id)) result) }
        ensures text { ComparesTexts (version_of self.new.state) (B.versions self.new.backend.now)
            (B.reads self.new.backend.now) result }
        ensures causes { PlainCauses (header_of self.new.state).tile_compression
            (B.faults self.old.backend.now) (B.faults self.new.backend.now) result }
        ensures still { FaultsStand (B.faults self.old.backend.now)
            (B.faults self.new.backend.now) result }
        ensures whole { IfSome (B.told self.old.backend.now) (λ _. IsWhole result) }
        ensures hops { IfSome (B.told self.old.backend.now)
            (λ b. IsCacheable b (C.idle self.old.cache)
            → ReadsByHops b tile_id (B.reads self.old.backend.now) (B.reads self.new.backend.now)) }
        ensures idle { C.idle self.old.cache → C.idle self.new.cache }
        ensures limits { (l : CacheLimits) → C.keeps_to self.old.cache l
            → C.keeps_to self.new.cache l }
        ensures kept { ReadsOnly B.told B.versions B.faults B.steady self.old.backend.now
            self.new.backend.now }
        ensures reads { GrewBetween (B.reads self.old.backend.now) (B.reads self.new.backend.now)
            (reads_for result) 7 }
    {
        let found = self.get_tile(tile_id);
        require_plain(self.state.header.tile_compression, found)
    }

    /// The entries of tiles, with a budget of so many leaves.
    pub fn entries(self, budget: u64) -> Entries<'a, B, C>
        requires tied { IsTied B.told C.held C.idle self }
        ensures same_reference { result.backend.ghost_name ≡ self.entry.backend.ghost_name }
        ensures same { result.backend.now ≡ self.entry.backend.now }
        ensures items { IfSome (B.told self.entry.backend.now)
            (λ b. left_of b result.state ≡ walk b budget) }
        ensures budget { budget_of result.state ≡ budget }
        ensures goes { has_ended result.state ≡ false }
    {
        let PmTilesReader {
            backend,
            cache,
            state,
        } = self;
        Entries {
            backend,
            cache,
            state: state.entries(budget),
        }
    }
}

// The opened state beside the cache that it is read with, which is let go where opening is refused.
fn open_with<B: Backend, C: DirectoryCache + Drop>(
    alloc: Global,
    backend: &mut B,
    cache: C,
) -> PmtResult<(C, ReaderState)>
    ensures refused { IfErr result (λ e. IfSome (B.told backend.old) (λ b. OpenAnswers b (Err e))) }
    ensures causes { OpenCauses (B.faults backend.old) (B.faults backend.new) result }
    ensures still { FaultsStand (B.faults backend.old) (B.faults backend.new) result }
    ensures open { IfOk result (λ p. IsOpen (B.told backend.new) p.1) }
    ensures cache { IfOk result (λ p. p.0 ≡ cache) }
    ensures version { IfOk result
        (λ p. HasVersionOf (B.versions backend.new) (B.reads backend.new) p.1) }
    ensures kept { ReadsOnly B.told B.versions B.faults B.steady backend.old backend.new }
    ensures reads { Grew (B.reads backend.old) (B.reads backend.new) 1 }
{
    let state = ReaderState::open(alloc, backend)?;
    Ok((cache, state))
}
