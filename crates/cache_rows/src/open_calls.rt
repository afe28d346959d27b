// Calls of a cache that is kept open from line to line.
ghost use Rattle.std.specs.Prelude.{◌≡◌, true};
ghost use Rattle.cache_rows.specs.Common.{Agrees};

use crate::said;
use crate::tiles::{At, Given, Times, at_in, given_in, times_in};
use mb_cache::{CacheState, UnixSeconds};
use mb_store::TileStore;
use rows_shared::{Words, number, said as said_value};
use std::alloc::Global;

fn set<S: TileStore>(
    out: &mut String,
    store: &mut S,
    state: &mut CacheState,
    given: &Given,
) -> Option<()>
    requires agrees { S.tells store.old ≡ true → Agrees (S.told store.old) state.old }
    ensures tells { S.tells store.new ≡ S.tells store.old }
    ensures agrees { S.tells store.old ≡ true → Agrees (S.told store.new) state.new }
{
    let at = given.at;
    let meta = given.beside.meta();
    said_value(
        out,
        state.set_cached(store, at.z, at.x, at.y, given.data.as_slice(), meta),
    )
}

fn update<S: TileStore>(
    out: &mut String,
    store: &mut S,
    state: &mut CacheState,
    times: &Times,
) -> Option<()>
    requires agrees { S.tells store.old ≡ true → Agrees (S.told store.old) state.old }
    ensures tells { S.tells store.new ≡ S.tells store.old }
    ensures agrees { S.tells store.old ≡ true → Agrees (S.told store.new) state.new }
{
    let at = times.at;
    let meta = times.beside.meta();
    said_value(out, state.update_cached_meta(store, at.z, at.x, at.y, meta))
}

fn get<S: TileStore>(
    alloc: Global,
    out: &mut String,
    store: &mut S,
    state: &CacheState,
    at: At,
) -> Option<()>
    ensures tells { S.tells store.new ≡ S.tells store.old }
    ensures told { S.told store.new ≡ S.told store.old }
{
    said::cached(alloc, out, state.get_cached(store, at.z, at.x, at.y))
}

fn tile<S: TileStore>(
    alloc: Global,
    out: &mut String,
    store: &mut S,
    state: &CacheState,
    at: At,
) -> Option<()>
    ensures tells { S.tells store.new ≡ S.tells store.old }
    ensures told { S.told store.new ≡ S.told store.old }
{
    said::bytes(alloc, out, state.get_tile(store, at.z, at.x, at.y))
}

fn expired<S: TileStore>(
    out: &mut String,
    store: &mut S,
    state: &mut CacheState,
    now: i64,
) -> Option<()>
    requires agrees { S.tells store.old ≡ true → Agrees (S.told store.old) state.old }
    ensures tells { S.tells store.new ≡ S.tells store.old }
    ensures agrees { S.tells store.old ≡ true → Agrees (S.told store.new) state.new }
{
    said_value(out, state.purge_expired(store, UnixSeconds(now)))
}

fn size<S: TileStore>(
    out: &mut String,
    store: &mut S,
    state: &mut CacheState,
    most: u64,
) -> Option<()>
    requires agrees { S.tells store.old ≡ true → Agrees (S.told store.old) state.old }
    ensures tells { S.tells store.new ≡ S.tells store.old }
    ensures agrees { S.tells store.old ≡ true → Agrees (S.told store.new) state.new }
{
    said_value(out, state.purge_cache_to_size(store, most))
}

fn meta<S: TileStore>(out: &mut String, store: &mut S, state: &CacheState) -> Option<()>
    ensures tells { S.tells store.new ≡ S.tells store.old }
    ensures told { S.told store.new ≡ S.told store.old }
{
    said::metadata(out, state.get_metadata(store))
}

/// A call of the open cache over its store.
pub fn answer<S: TileStore>(
    alloc: Global,
    out: &mut String,
    store: &mut S,
    state: &mut CacheState,
    call: &str,
    words: &mut Words,
) -> Option<()>
    requires agrees { S.tells store.old ≡ true → Agrees (S.told store.old) state.old }
    ensures tells { S.tells store.new ≡ S.tells store.old }
    ensures agrees { S.tells store.old ≡ true → Agrees (S.told store.new) state.new }
{
    match call {
        "set" => set(out, store, state, &given_in(alloc, words)?),
        "update" => update(out, store, state, &times_in(alloc, words)?),
        "get" => get(alloc, out, store, state, at_in(words)?),
        "tile" => tile(alloc, out, store, state, at_in(words)?),
        "expired" => expired(out, store, state, number(words)?),
        "size" => size(out, store, state, number(words)?),
        "meta" => meta(out, store, state),
        _ => None,
    }
}
