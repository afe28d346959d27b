// A server of tiles: how many it may hold, its replies, and what it holds after them.
ghost use Rattle.std.specs.Prelude.{◌≡◌, [], Some, IfOk};
ghost use Rattle.bounded_lru.specs.Bounded.{bounded};
ghost use Rattle.tile_serve.specs.Answers.{Answers, LeavesTiles, OverOneLength};
ghost use Rattle.tile_serve.specs.Limits.{IsLimits};
ghost use Rattle.tile_serve.specs.Request.{request_of};
ghost use Rattle.tile_serve.specs.State.{IsServing, tiles_of};

use base_values::BlobVal;
use pm_format::Backend;
use std::alloc::Global;
use tile_serve::{ServeError, ServeLimits, ServerState};

/// A server that holds no tile yet, and how much it may hold.
pub fn serve<B: Backend>(
    alloc: Global,
    backend: &mut B,
    limits: ServeLimits,
) -> Result<ServerState, ServeError>
    requires limits { IsLimits limits }
    ensures tiles { IfOk result
        (λ s. tiles_of s ≡ bounded [] limits.tiles (Some limits.tile_bytes)) }
{
    ServerState::open(alloc, backend, limits)
}

/// The reply to a line.
pub fn reply<B: Backend>(
    server: &mut ServerState,
    backend: &mut B,
    line: &[u8],
) -> Result<BlobVal, ServeError>
    requires serving { IsServing (B.told backend.old) (B.versions backend.old) server.old }
    ensures answer { OverOneLength (B.told backend.old) (λ b. Answers b line.now result) }
{
    server.answer(backend, line)
}

/// The tiles that a server holds after a line. Only edits take memory.
pub fn held_after<B: Backend>(
    _alloc: Global,
    server: &mut ServerState,
    backend: &mut B,
    line: &[u8],
) -> Result<BlobVal, ServeError>
    requires serving { IsServing (B.told backend.old) (B.versions backend.old) server.old }
    ensures tiles { OverOneLength (B.told backend.old)
        (λ b. LeavesTiles b (request_of line.now) (tiles_of server.old) (tiles_of server.new)
        result) }
{
    ServerState::answer(server, backend, line)
}
