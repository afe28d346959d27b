// Calls of a cache that is opened for the call.
ghost use Rattle.std.specs.Prelude.{◌≡◌, true};
ghost use Rattle.cache_rows.specs.Common.{Agrees};

use crate::said;
use crate::tiles::{At, Given, Times, at_in, given_in, times_in};
use mb_cache::{CacheState, MbtilesCache, UnixSeconds};
use mb_store::TileStore;
use rows_shared::{Words, number, said as said_value};
use std::alloc::Global;

fn set<S: TileStore>(out: &mut String, cache: &mut MbtilesCache<S>, given: &Given) -> Option<()>
    requires { S.tells cache.old.store.now ≡ true
        → Agrees (S.told cache.old.store.now) cache.old.state }
{
    let at = given.at;
    let meta = given.beside.meta();
    said_value(
        out,
        cache.set_cached(at.z, at.x, at.y, given.data.as_slice(), meta),
    )
}

fn update<S: TileStore>(out: &mut String, cache: &mut MbtilesCache<S>, times: &Times) -> Option<()>
    requires { S.tells cache.old.store.now ≡ true
        → Agrees (S.told cache.old.store.now) cache.old.state }
{
    let at = times.at;
    let meta = times.beside.meta();
    said_value(out, cache.update_cached_meta(at.z, at.x, at.y, meta))
}

fn get<S: TileStore>(
    alloc: Global,
    out: &mut String,
    cache: &mut MbtilesCache<S>,
    at: At,
) -> Option<()> {
    said::cached(alloc, out, cache.get_cached(at.z, at.x, at.y))
}

fn tile<S: TileStore>(
    alloc: Global,
    out: &mut String,
    cache: &mut MbtilesCache<S>,
    at: At,
) -> Option<()> {
    said::bytes(alloc, out, cache.get_tile(at.z, at.x, at.y))
}

fn expired<S: TileStore>(out: &mut String, cache: &mut MbtilesCache<S>, now: i64) -> Option<()>
    requires { S.tells cache.old.store.now ≡ true
        → Agrees (S.told cache.old.store.now) cache.old.state }
{
    said_value(out, cache.purge_expired(UnixSeconds(now)))
}

fn size<S: TileStore>(out: &mut String, cache: &mut MbtilesCache<S>, most: u64) -> Option<()>
    requires { S.tells cache.old.store.now ≡ true
        → Agrees (S.told cache.old.store.now) cache.old.state }
{
    said_value(out, cache.purge_cache_to_size(most))
}

fn call_of<S: TileStore>(
    alloc: Global,
    out: &mut String,
    cache: &mut MbtilesCache<S>,
    words: &mut Words,
) -> Option<()>
    requires { S.tells cache.old.store.now ≡ true
        → Agrees (S.told cache.old.store.now) cache.old.state }
{
    match words.next()? {
        "set" => set(out, cache, &given_in(alloc, words)?),
        "update" => update(out, cache, &times_in(alloc, words)?),
        "get" => get(alloc, out, cache, at_in(words)?),
        "tile" => tile(alloc, out, cache, at_in(words)?),
        "expired" => expired(out, cache, number(words)?),
        "size" => size(out, cache, number(words)?),
        "meta" => said::metadata(out, cache.get_metadata()),
        _ => None,
    }
}

/// A call of a cache that is opened for it.
pub fn opened<S: TileStore>(
    alloc: Global,
    out: &mut String,
    store: &mut S,
    words: &mut Words,
) -> Option<()> {
    match MbtilesCache::open_cache(alloc, store) {
        Ok(mut cache) => call_of(alloc, out, &mut cache, words),
        Err(error) => said_value(out, error),
    }
}

/// The same over a state that was opened apart.
pub fn over<S: TileStore>(
    alloc: Global,
    out: &mut String,
    store: &mut S,
    words: &mut Words,
) -> Option<()> {
    match CacheState::open(alloc, store) {
        Ok(state) => call_of(alloc, out, &mut MbtilesCache::over(store, state), words),
        Err(error) => said_value(out, error),
    }
}
