// A cache of tiles in a set.
use mb_cache::{CacheEntryMeta, MbtilesCache, UnixSeconds};
use mb_store::{MbtType, MemStore};
use std::alloc::Global;

// Keeps a tile that expires at second 60, and throws out what has expired at second 100.
fn purged(alloc: Global) -> anyhow::Result<(bool, u64)> {
    let mut store = MemStore::with_layout(alloc, MbtType::Cache)?;
    let mut cache = MbtilesCache::open_cache(alloc, &mut store)?;
    let meta = CacheEntryMeta::new(UnixSeconds(0), UnixSeconds(60), "v1");
    cache.set_cached(0, 0, 0, b"world", meta)?;
    let is_there = cache.get_cached(0, 0, 0)?.is_some();
    let purged = cache.purge_expired(UnixSeconds(100))?;
    Ok((is_there, purged))
}

/// The tile is there until it has expired.
pub fn keep_a_cache(rt: &HostRuntime) -> anyhow::Result<()> {
    let (is_there, purged) = purged(rt.alloc())?;
    println!(rt; "cached: there {is_there}, expired {purged}")?;
    Ok(())
}
