// Loading of the store that is kept.
use mb_load::load;
use mb_loaded::Loaded;
use mb_store::{MbtResult, MemStore};
use rows_shared::{said, say};
use std::alloc::Global;
use std::fmt::Write;

// The tiles in their order, each with its contents and its id.
fn say_tiles(out: &mut String, set: &Loaded) -> Option<()> {
    for index in 0..set.tile_count() {
        let (coord, cell) = set.tile_at(index);
        write!(out, "{}/{}/{} {:?} ", coord.z(), coord.x(), coord.y(), cell).ok()?;
        say(out, &set.id_of(coord))?;
        say(out, &set.tile(coord).is_some())?;
    }
    Some(())
}

// The names in their order, each with its value.
fn say_names(out: &mut String, set: &Loaded) -> Option<()> {
    for index in 0..set.metadata_count() {
        let (name, value) = set.metadata_at(index);
        write!(out, "{name} {value:?} ").ok()?;
    }
    Some(())
}

// The layout, the algorithm, the tiles and the names of a set.
pub fn say_set(out: &mut String, set: &Loaded) -> Option<()> {
    say(out, &set.mbt_type())?;
    say(out, &set.algorithm())?;
    say(out, &set.patch_type())?;
    say_tiles(out, set)?;
    say_names(out, set)
}

fn said_set(out: &mut String, set: Loaded) -> Option<()> {
    say_set(out, &set)
}

// The set, or the error in its place.
pub fn said_loaded(out: &mut String, loaded: MbtResult<Loaded>) -> Option<()> {
    match loaded {
        Ok(set) => said_set(out, set),
        Err(error) => said(out, error),
    }
}

pub fn answer(alloc: Global, out: &mut String, store: &mut MemStore) -> Option<()> {
    said_loaded(out, load(alloc, store))
}
