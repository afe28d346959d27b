// Adds to an archive that is begun.
ghost use Rattle.std.specs.Prelude.{◌≡◌, ◌≤◌, ◌+◌, length};
ghost use Rattle.pm_writer.specs.Common.{id_of, KeepsMedium, xxh3_64, FaultsStand};
ghost use Rattle.pm_writer.specs.Adding.{IsAdded, IsCaused, IsQuiet, IsUnadded, WritesSome};
ghost use Rattle.pm_format.specs.declared.compression.Compression.TheVariants as compression;
ghost use Rattle.pm_writer.specs.Causes.{failed_after};
ghost use Rattle.pm_writer.specs.Writing.{has_failed};

use crate::WriterState;
use pm_format::{Compression, Medium, PmtError, PmtResult};
use tile_hash::xxh3_64;
use tile_ids::{TileCoord, TileId};

impl WriterState {
    /// Adds the bytes of the tile with this id as they are. Empty data is no tile: it changes nothing, and neither a
    /// fault nor running out of memory comes.
    ///
    /// The data is compared with a content of its digest and length that the medium answers, where there is one, by
    /// one read. A medium that tells its bytes answers what was written, and the data is taken for itself; one that
    /// doesn't may answer other bytes, and the data is then taken for the data of that content, or for a new content
    /// that no data is equal to.
    ///
    /// `Failed` comes exactly after an earlier fault of the medium in this writer, and `IndexEntryOverflow` only where
    /// what the data is taken for has 2^32 bytes or more, or its end would pass u64; then the answer is never Ok.
    /// `Reading(Fault)`, only where the medium's count of faults rose, and `OutOfMemory` may come in the place of the
    /// last one, for data of fewer than 2^32 bytes. After each of them the writer and its medium mean what they did,
    /// and no part of an archive is shown.
    pub fn add_raw_tile_by_id<M: Medium>(
        &mut self,
        medium: &mut M,
        id: TileId,
        bytes: &[u8],
    ) -> PmtResult<()>
        requires writes { WritesSome (M.told medium.old) self.old }
        ensures writes { WritesSome (M.told medium.new) self.new }
        ensures added { IsAdded M.told M.reads medium.old medium.new self.old self.new
            id bytes.now result }
        ensures refused { IsUnadded M.told medium.old medium.new self.old self.new result }
        ensures causes { IsCaused (λ _. compression.None) M.told M.reads M.faults
            medium.old medium.new self.old id bytes.now result }
        ensures still { FaultsStand (M.faults medium.old) (M.faults medium.new) result }
        ensures empty { length bytes.now ≡ 0 → (self.new ≡ self.old) × (medium.new ≡ medium.old) }
        ensures failed { has_failed self.new ≡ failed_after (has_failed self.old) result }
        ensures reads { M.reads medium.new ≤ M.reads medium.old + 1 }
        ensures quiet { IsQuiet M.told M.reads medium.old medium.new self.old bytes.now }
        ensures kept { KeepsMedium M.told M.versions M.reads M.faults M.steady
            medium.old medium.new }
    {
        self.add_raw_tile_with_digest(medium, id, xxh3_64(bytes), bytes)
    }

    /// Adds the bytes of the tile with this id as they are: `add_raw_tile_by_id` for a caller
    /// that has their XXH3 digest.
    pub fn add_raw_tile_with_digest<M: Medium>(
        &mut self,
        medium: &mut M,
        id: TileId,
        digest: u64,
        bytes: &[u8],
    ) -> PmtResult<()>
        requires digest { digest ≡ xxh3_64 bytes.now }
        requires writes { WritesSome (M.told medium.old) self.old }
        ensures writes { WritesSome (M.told medium.new) self.new }
        ensures added { IsAdded M.told M.reads medium.old medium.new self.old self.new
            id bytes.now result }
        ensures refused { IsUnadded M.told medium.old medium.new self.old self.new result }
        ensures causes { IsCaused (λ _. compression.None) M.told M.reads M.faults
            medium.old medium.new self.old id bytes.now result }
        ensures still { FaultsStand (M.faults medium.old) (M.faults medium.new) result }
        ensures empty { length bytes.now ≡ 0 → (self.new ≡ self.old) × (medium.new ≡ medium.old) }
        ensures failed { has_failed self.new ≡ failed_after (has_failed self.old) result }
        ensures reads { M.reads medium.new ≤ M.reads medium.old + 1 }
        ensures quiet { IsQuiet M.told M.reads medium.old medium.new self.old bytes.now }
        ensures kept { KeepsMedium M.told M.versions M.reads M.faults M.steady
            medium.old medium.new }
    {
        self.add_raw_run_with_digest(medium, id.value(), 1, digest, bytes)
    }

    /// Adds the bytes of a tile as they are: `add_raw_tile_by_id` of the coordinate's id.
    pub fn add_raw_tile<M: Medium>(
        &mut self,
        medium: &mut M,
        coord: TileCoord,
        bytes: &[u8],
    ) -> PmtResult<()>
        requires writes { WritesSome (M.told medium.old) self.old }
        ensures writes { WritesSome (M.told medium.new) self.new }
        ensures added { IsAdded M.told M.reads medium.old medium.new self.old self.new
            (id_of coord) bytes.now result }
        ensures refused { IsUnadded M.told medium.old medium.new self.old self.new result }
        ensures causes { IsCaused (λ _. compression.None) M.told M.reads M.faults
            medium.old medium.new self.old (id_of coord) bytes.now result }
        ensures still { FaultsStand (M.faults medium.old) (M.faults medium.new) result }
        ensures empty { length bytes.now ≡ 0 → (self.new ≡ self.old) × (medium.new ≡ medium.old) }
        ensures failed { has_failed self.new ≡ failed_after (has_failed self.old) result }
        ensures reads { M.reads medium.new ≤ M.reads medium.old + 1 }
        ensures quiet { IsQuiet M.told M.reads medium.old medium.new self.old bytes.now }
        ensures kept { KeepsMedium M.told M.versions M.reads M.faults M.steady
            medium.old medium.new }
    {
        self.add_raw_tile_by_id(medium, TileId::from(coord), bytes)
    }

    /// Adds a plain tile: as `add_raw_tile`, but `UnsupportedCompression` is answered, behind `Failed`, exactly where
    /// tiles aren't labelled `None`.
    pub fn add_tile<M: Medium>(
        &mut self,
        medium: &mut M,
        coord: TileCoord,
        bytes: &[u8],
    ) -> PmtResult<()>
        requires writes { WritesSome (M.told medium.old) self.old }
        ensures writes { WritesSome (M.told medium.new) self.new }
        ensures added { IsAdded M.told M.reads medium.old medium.new self.old self.new
            (id_of coord) bytes.now result }
        ensures refused { IsUnadded M.told medium.old medium.new self.old self.new result }
        ensures causes { IsCaused (λ o. o.tile_compression) M.told M.reads M.faults
            medium.old medium.new self.old (id_of coord) bytes.now result }
        ensures still { FaultsStand (M.faults medium.old) (M.faults medium.new) result }
        ensures empty { length bytes.now ≡ 0 → (self.new ≡ self.old) × (medium.new ≡ medium.old) }
        ensures failed { has_failed self.new ≡ failed_after (has_failed self.old) result }
        ensures reads { M.reads medium.new ≤ M.reads medium.old + 1 }
        ensures quiet { IsQuiet M.told M.reads medium.old medium.new self.old bytes.now }
        ensures kept { KeepsMedium M.told M.versions M.reads M.faults M.steady
            medium.old medium.new }
    {
        let label = self.settings.tile_compression;
        if self.failed {
            return Err(PmtError::Failed);
        }
        if label != Compression::None {
            return Err(PmtError::UnsupportedCompression(label));
        }
        self.add_raw_tile(medium, coord, bytes)
    }
}
