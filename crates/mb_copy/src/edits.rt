// The edits of a set into which another one is copied.
ghost use Rattle.std.specs.Prelude.{◌≡◌, ◌<◌, IfOk, IfSome, OnOk, slice_get, true};
ghost use Rattle.mb_copy.specs.Common.{contains_key, entries, from_last, get, len, Place, place_at};
ghost use Rattle.mb_copy.specs.HeldCopied.{IsPutIn, all_times_put, null_put, nulls_put, time_put, times_at};
ghost use Rattle.mb_tables.specs.declared.kind.MbtType.TheVariants.{Cache};

use base_values::OutOfMemory;
use mb_loaded::{Editing, Loaded};
use mb_store::{Cell, MbtType};
use std::alloc::Global;
use tile_ids::TileCoord;

// Puts null at the place of the tile at an index of what is put, where that is null.
fn put_null(set: &mut Editing, put: &Loaded, index: usize) -> Result<(), OutOfMemory>
    requires { index < len put.now.state.tiles }
    ensures { OnOk result (IfSome (slice_get (entries put.now.state.tiles) index)
        (λ e. set.new ≡ null_put set.old e)) }
{
    match put.tile_at(index) {
        (coord, Cell::Null) => set.set_null(coord),
        _ => Ok(()),
    }
}

// Puts all nulls, from the last to the first.
fn put_all_nulls(set: &mut Editing, put: &Loaded) -> Result<(), OutOfMemory>
    ensures { OnOk result (set.new ≡ from_last null_put set.old (entries put.now.state.tiles)) }
{
    let mut left = put.tile_count();
    while left > 0 {
        left -= 1;
        put_null(set, put, left)?;
    }
    Ok(())
}

/// A set with the nulls of what is put, where it can have any.
pub(crate) fn with_nulls(set: Loaded, put: &Loaded) -> Result<Loaded, OutOfMemory>
    ensures { IfOk result (λ h. h ≡ nulls_put set put.now.state.tiles) }
{
    if set.mbt_type().is_normalized() {
        return Ok(set);
    }
    let mut editing = set.edit();
    put_all_nulls(&mut editing, put)?;
    editing.settle()
}

// Gives the tile at a coordinate of a cache the times that what is put has there, if it has any.
fn put_times_at(
    alloc: Global,
    set: &mut Loaded,
    put: &Loaded,
    coord: TileCoord,
) -> Result<(), OutOfMemory>
    requires layout { set.old.state.layout ≡ Cache }
    requires there { contains_key set.old.state.tiles (place_at coord) ≡ true }
    ensures { OnOk result
        (set.new ≡ times_at set.old (place_at coord) (get put.now.state.dates (place_at coord))) }
{
    match put.cache_fields(coord) {
        Some((fetched, expires, etag)) => {
            let fetched = fetched.try_clone(alloc)?;
            let expires = expires.try_clone(alloc)?;
            let etag = etag.try_clone(alloc)?;
            set.set_cache_fields(coord, fetched, expires, etag);
            Ok(())
        }
        None => Ok(()),
    }
}

// The same of the tile at an index of what is put.
fn put_time(alloc: Global, set: &mut Loaded, put: &Loaded, index: usize) -> Result<(), OutOfMemory>
    requires index { index < len put.now.state.tiles }
    requires layout { set.old.state.layout ≡ Cache }
    requires there { (p : Place) → contains_key put.now.state.tiles p ≡ true
        → contains_key set.old.state.tiles p ≡ true }
    ensures { OnOk result (IfSome (slice_get (entries put.now.state.tiles) index)
        (λ e. set.new ≡ time_put put.now.state.dates set.old e)) }
{
    let (coord, _) = put.tile_at(index);
    put_times_at(alloc, set, put, coord)
}

// Gives all tiles that are put into a cache their times, from the last to the first.
fn put_all_times(alloc: Global, set: &mut Loaded, put: &Loaded) -> Result<(), OutOfMemory>
    requires layout { set.old.state.layout ≡ Cache }
    requires there { (p : Place) → contains_key put.now.state.tiles p ≡ true
        → contains_key set.old.state.tiles p ≡ true }
    ensures { OnOk result
        (set.new ≡ from_last (time_put put.now.state.dates) set.old (entries put.now.state.tiles)) }
{
    let mut left = put.tile_count();
    while left > 0 {
        left -= 1;
        put_time(alloc, set, put, left)?;
    }
    Ok(())
}

/// A set with the times of what is put, where it is a cache.
pub(crate) fn with_times(
    alloc: Global,
    mut set: Loaded,
    put: &Loaded,
) -> Result<Loaded, OutOfMemory>
    requires { IsPutIn put.now.state.tiles set }
    ensures { IfOk result (λ h. h ≡ all_times_put put.now.state.dates set put.now.state.tiles) }
{
    if set.mbt_type() != MbtType::Cache {
        return Ok(set);
    }
    put_all_times(alloc, &mut set, put)?;
    Ok(set)
}
