// Look-ups of ids in a row, and of ids in any order, by one reader.
ghost use Rattle.std.specs.Prelude.{◌≡◌};
ghost use Rattle.archive_rows.specs.Common.{IsTied};

use bytes::Bytes;
use pm_format::{Backend, PmtResult};
use pm_reader::{DirectoryCache, PmTilesReader};
use rows_shared::{Words, said, say, say_bytes};
use std::alloc::Global;
use tile_hash::{HashAlgorithm, HashStream};
use tile_ids::TileId;

// A tile that was looked up: its bytes, `none`, or why it is refused.
pub fn say_tile(alloc: Global, out: &mut String, given: PmtResult<Option<Bytes>>) -> Option<()> {
    match given {
        Ok(Some(bytes)) => say_bytes(alloc, out, bytes.as_slice()),
        Ok(None) => out.push_str("none ").ok(),
        Err(error) => said(out, error),
    }
}

// The tiles of the ids that are left, one after another.
pub fn tiles<B: Backend, C: DirectoryCache>(
    alloc: Global,
    out: &mut String,
    reader: &mut PmTilesReader<'_, B, C>,
    words: &mut Words,
) -> Option<()>
    requires { IsTied B.told C.held C.idle reader.old }
    ensures tied { IsTied B.told C.held C.idle reader.new }
    ensures same_reference { reader.new.backend.ghost_name ≡ reader.old.backend.ghost_name }
{
    for word in words {
        let id = TileId::new(word.parse::<u64>().ok()?).ok()?;
        let given = reader.get_tile(id);
        say_tile(alloc, out, given)?;
    }
    Some(())
}

// What tiles there are at ids in a row: how many, and the digest of their bytes in a row.
#[derive(Drop)]
pub struct Swept {
    pub found: u64,
    pub digest: HashStream,
}

fn take(swept: Swept, given: Option<Bytes>) -> Swept {
    let Some(bytes) = given else {
        return swept;
    };
    let mut digest = swept.digest;
    digest.update(bytes.as_slice());
    Swept {
        found: swept.found.saturating_add(1),
        digest,
    }
}

fn gather<B: Backend, C: DirectoryCache>(
    reader: &mut PmTilesReader<'_, B, C>,
    first: u64,
    end: u64,
) -> PmtResult<Swept>
    requires { IsTied B.told C.held C.idle reader.old }
    ensures tied { IsTied B.told C.held C.idle reader.new }
    ensures same_reference { reader.new.backend.ghost_name ≡ reader.old.backend.ghost_name }
{
    let mut swept = Swept {
        found: 0,
        digest: HashStream::new(HashAlgorithm::Md5),
    };
    for id in first..end {
        let tile_id = TileId::new(id)?;
        let given = reader.get_tile_unversioned(tile_id)?;
        swept = take(swept, given);
    }
    Ok(swept)
}

fn said_digest(alloc: Global, out: &mut String, swept: Swept) -> Option<()> {
    say(out, &swept.found)?;
    said(out, swept.digest.finish(alloc).ok()?)
}

fn say_swept(alloc: Global, out: &mut String, given: PmtResult<Swept>) -> Option<()> {
    match given {
        Ok(swept) => said_digest(alloc, out, swept),
        Err(error) => said(out, error),
    }
}

// The tiles from an id to before another.
pub fn sweep_tiles<B: Backend, C: DirectoryCache>(
    alloc: Global,
    out: &mut String,
    reader: &mut PmTilesReader<'_, B, C>,
    first: u64,
    end: u64,
) -> Option<()>
    requires { IsTied B.told C.held C.idle reader.old }
    ensures tied { IsTied B.told C.held C.idle reader.new }
    ensures same_reference { reader.new.backend.ghost_name ≡ reader.old.backend.ghost_name }
{
    let given = gather(reader, first, end);
    say_swept(alloc, out, given)
}
