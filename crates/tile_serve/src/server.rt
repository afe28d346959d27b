// A server that borrows its backend.
ghost use Rattle.std.specs.Prelude.{◌≡◌, ◌≢◌, ◌<◌, ◌-◌, ◌^◌, [], false, length, Err, Some, IfErr, IfOk, IfSome};
ghost use Rattle.std.specs.Borrow.{sem, RestsIfErr};
ghost use Rattle.tile_serve.specs.Common.{bounded, Grew, GrewBetween, IsWithin, opened, ReadsOnly, weight_of};
ghost use Rattle.pm_format.specs.declared.error.PmtError.TheVariants as errors;
ghost use Rattle.pm_format.specs.declared.error.ReadCause.TheVariants as causes;
ghost use Rattle.tile_serve.specs.Answers.{Answers, Causes, Compares, HasTexts, IsOpeningError, IsReadFor, IsUniform, IsUnmodified, IsWanting, LeavesTiles, OverOneLength, ReadsFor, RefusesOpening};
ghost use Rattle.tile_serve.specs.Limits.{IsLimits};
ghost use Rattle.tile_serve.specs.Refused.{LeftByOpening};
ghost use Rattle.tile_serve.specs.Request.{request_of};
ghost use Rattle.tile_serve.specs.Server.{IsTied};
ghost use Rattle.tile_serve.specs.State.{KeepsBounds, KeepsDirectories, directories_of, opened_as, tiles_of};
ghost use Rattle.tile_serve.specs.Tiles.{is_read};
ghost use Rattle.tile_serve.specs.Faults.{FaultsStand};

use crate::{ServeError, ServeLimits, ServerState};
use base_values::BlobVal;
use pm_format::Backend;
use std::alloc::Global;

/// A server of the tiles of an archive, over a backend that it borrows.
pub struct TileServer<'a, B: Backend, S = ServerState> {
    pub(crate) backend: &'a mut B,
    pub(crate) state: S,
}

// What is let go leaves the backend as it is.
impl<B: Backend, S: Drop> Drop for TileServer<'_, B, S> {
    fn drop(self)
        ensures same { self.exit.0.now ≡ self.entry.backend.now }
    {
        let TileServer {
            backend: _,
            state: _,
        } = self;
    }
}

impl<'a, B: Backend> TileServer<'a, B> {
    /// Opens the archive of a backend, by `ServerState::open`. The limits are to allow a directory and a tile;
    /// nothing is reserved for them.
    ///
    /// An error is one that `ServerState::open` answers: over told bytes exactly their first refusal, running out of
    /// memory, or a fault in `Opening`, which doesn't come over a backend whose calls don't fail. After an error the
    /// backend was read once, and tells the bytes and version texts that it told; its count of faults didn't fall, and
    /// rose where a fault came in `Opening` (`rests`). Whoever needs this for a proof calls `ServerState::open`.
    pub fn open(
        alloc: Global,
        backend: &'a mut B,
        limits: ServeLimits,
    ) -> Result<TileServer<'a, B>, ServeError>
        requires limits { IsLimits limits }
        ensures* rests { sem 𝓛 (RestsIfErr B.row backend.entry (λ s. s.backend.ghost_name) result
            (LeftByOpening B.told B.versions B.faults B.reads B.steady backend.old result)) }
        ensures refused { IfErr result
            (λ e. IfSome (B.told backend.old) (λ b. RefusesOpening (opened b) e)) }
        ensures causes { IfErr result IsOpeningError }
        ensures unfailing { B.steady backend.old → B.faults backend.old < 2 ^ 64 - 1
            → result ≢ Err (ServeError.Opening (errors.Reading causes.Fault)) }
        ensures same_reference { IfOk result
            (λ s. s.backend.ghost_name ≡ backend.entry.ghost_name) }
        ensures tied { IfOk result (λ s. IsTied B.told B.versions s) }
        ensures tiles { IfOk result
            (λ s. tiles_of s.state ≡ bounded [] limits.tiles (Some limits.tile_bytes)) }
        ensures directories { IfOk result
            (λ s. directories_of s.state
            ≡ bounded [] limits.directories (Some limits.directory_entries)) }
        ensures version { IfOk result
            (λ s. IfSome (B.versions s.backend.now)
            (λ text. opened_as s.state ≡ text (B.reads s.backend.now))) }
        ensures still { IfOk result (λ s. B.faults s.backend.now ≡ B.faults backend.old) }
        ensures kept { IfOk result
            (λ s. ReadsOnly B.told B.versions B.faults B.steady backend.old s.backend.now) }
        ensures reads { IfOk result (λ s. Grew (B.reads backend.old) (B.reads s.backend.now) 1) }
    {
        match ServerState::open(alloc, backend, limits) {
            Ok(state) => Ok(TileServer { backend, state }),
            Err(error) => Err(error),
        }
    }

    /// The reply to a line, as `ServerState::answer` gives it.
    pub fn answer(&mut self, line: &[u8]) -> Result<BlobVal, ServeError>
        requires tied { IsTied B.told B.versions self.old }
        ensures tied { IsTied B.told B.versions self.new }
        ensures same_reference { self.new.backend.ghost_name ≡ self.old.backend.ghost_name }
        ensures answer { OverOneLength (B.told self.old.backend.now)
            (λ b. Answers b line.now result) }
        ensures compares { OverOneLength (B.told self.old.backend.now)
            (λ b. Compares (opened_as self.old.state) (B.versions self.new.backend.now)
            (B.reads self.new.backend.now)
            (IsReadFor b (request_of line.now) (tiles_of self.old.state)) result) }
        ensures hops { OverOneLength (B.told self.old.backend.now)
            (λ b. ReadsFor b (request_of line.now)
            (B.reads self.old.backend.now) (B.reads self.new.backend.now)) }
        ensures tiles { OverOneLength (B.told self.old.backend.now)
            (λ b. LeavesTiles b (request_of line.now)
            (tiles_of self.old.state) (tiles_of self.new.state) result) }
        ensures untouched { is_read (request_of line.now) (tiles_of self.old.state) ≡ false
            → self.new.backend.now ≡ self.old.backend.now }
        ensures unmodified { IsUniform (B.versions self.old.backend.now) → IsUnmodified result }
        ensures texts { HasTexts (opened_as self.old.state) (B.versions self.new.backend.now)
            (B.reads self.new.backend.now) result }
        ensures causes { Causes (B.told self.old.backend.now)
            (B.faults self.old.backend.now) (B.faults self.new.backend.now) result }
        ensures still { FaultsStand
            (B.faults self.old.backend.now) (B.faults self.new.backend.now) result }
        ensures same { opened_as self.new.state ≡ opened_as self.old.state }
        ensures asked { is_read (request_of line.now) (tiles_of self.old.state) ≡ false
            → IsWanting result }
        ensures bounds { KeepsBounds self.old.state self.new.state }
        ensures directories { KeepsDirectories self.old.state self.new.state }
        ensures kept { ReadsOnly B.told B.versions B.faults B.steady
            self.old.backend.now self.new.backend.now }
        ensures reads { GrewBetween
            (B.reads self.old.backend.now) (B.reads self.new.backend.now) 0 7 }
    {
        self.state.answer(self.backend, line)
    }

    /// How many bytes the tiles have together that are held.
    pub fn held_tile_bytes(&self) -> u64
        ensures sum { result ≡ weight_of length (tiles_of self.now.state).pairs }
        ensures within { IsWithin length (tiles_of self.now.state) }
    {
        self.state.held_tile_bytes()
    }
}
