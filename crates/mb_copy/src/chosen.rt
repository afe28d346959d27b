// What of a source is put into a set.
ghost use Rattle.std.specs.Prelude.{◌≡◌, ◌++◌, IfOk, OnOk, [], ◌∷◌, cond, map};
ghost use Rattle.mb_copy.specs.Common.{entries, get, is_null_at, place_at};
ghost use Rattle.mb_copy.specs.Chosen.{is_copied_name, is_put, is_put_name, names_to_put, tiles_to_put, times_to_put, wins};
ghost use Rattle.mb_copy.specs.Clearing.{IsSource, removed_all, unput_names, unput_places};

use crate::target::mode_of;
use crate::wanted::is_chosen;
use crate::{CopyDuplicateMode, MbtilesCopier};
use base_values::{OutOfMemory, TextVal};
use mb_loaded::{Editing, Loaded};
use mb_store::{Cell, HASH_ALGORITHM};
use std::alloc::Global;
use tile_ids::TileCoord;

// Whether what is copied is put, by whether the set has something there, and whether nothing is left of it there.
fn wins(mode: CopyDuplicateMode, there: bool, nothing: bool) -> bool
    ensures { result ≡ wins mode there nothing }
{
    match mode {
        CopyDuplicateMode::Override => there || !nothing,
        CopyDuplicateMode::Ignore => !there && !nothing,
        CopyDuplicateMode::Abort => !there && !nothing,
    }
}

// Whether a set has null at a coordinate.
fn is_null_tile(set: &Loaded, coord: TileCoord) -> bool
    ensures { result ≡ is_null_at (get set.now.state.tiles (place_at coord)) }
{
    match set.tile(coord) {
        Some(cell) => cell.is_null(),
        None => false,
    }
}

// Whether the tile of a source at a coordinate is put into a set, where there is one.
fn is_put(copier: &MbtilesCopier, source: &Loaded, base: &Loaded, coord: TileCoord) -> bool
    ensures { result ≡ is_put copier.now source.now.state.tiles base.now.state (place_at coord) }
{
    if !is_chosen(copier, coord) {
        return false;
    }
    let there = base.tile(coord).is_some();
    let nothing = base.mbt_type().is_normalized() && is_null_tile(source, coord);
    wins(mode_of(copier), there, nothing)
}

// Adds a coordinate whose tile isn't put.
fn add_unput(
    copier: &MbtilesCopier,
    source: &Loaded,
    base: &Loaded,
    coord: TileCoord,
    unput: &mut Vec<TileCoord>,
) -> Result<(), OutOfMemory>
    ensures { OnOk result
        (unput.new.items ≡ unput.old.items ++ cond
        (is_put copier.now source.now.state.tiles base.now.state (place_at coord)) []
        (coord ∷ [])) }
{
    if !is_put(copier, source, base, coord) {
        unput.push(coord)?;
    }
    Ok(())
}

// The coordinates of a source's tiles that aren't put.
fn unput_coords(
    alloc: Global,
    copier: &MbtilesCopier,
    source: &Loaded,
    base: &Loaded,
) -> Result<Vec<TileCoord>, OutOfMemory>
    ensures { IfOk result
        (λ unput. map place_at unput.items ≡ unput_places copier.now source.now.state.tiles
        base.now.state (entries source.now.state.tiles)) }
{
    let mut unput = Vec::new(alloc);
    for index in 0..source.tile_count() {
        let (coord, _) = source.tile_at(index);
        add_unput(copier, source, base, coord, &mut unput)?;
    }
    Ok(unput)
}

/// Whether a name is copied: the algorithm of a set stays its own.
pub(crate) fn is_copied_name(copier: &MbtilesCopier, name: &str) -> bool
    ensures { result ≡ is_copied_name copier.now name.now }
{
    copier.copy.copy_metadata() && name != HASH_ALGORITHM
}

// Whether a name of a source is put into a set.
fn is_put_name(copier: &MbtilesCopier, base: &Loaded, name: &str) -> bool
    ensures { result ≡ is_put_name copier.now base.now.state.metadata name.now }
{
    let there = base.metadata(name).is_some();
    is_copied_name(copier, name) && wins(mode_of(copier), there, false)
}

// Adds a name that isn't put.
fn add_unput_name(
    alloc: Global,
    copier: &MbtilesCopier,
    base: &Loaded,
    name: &str,
    unput: &mut Vec<TextVal>,
) -> Result<(), OutOfMemory>
    ensures { OnOk result
        (unput.new.items ≡ unput.old.items ++ cond
        (is_put_name copier.now base.now.state.metadata name.now) [] (name.now ∷ [])) }
{
    if !is_put_name(copier, base, name) {
        let name = TextVal::new(String::from_str(alloc, name)?);
        unput.push(name)?;
    }
    Ok(())
}

// The names of a source that aren't put.
fn unput_names(
    alloc: Global,
    copier: &MbtilesCopier,
    source: &Loaded,
    base: &Loaded,
) -> Result<Vec<TextVal>, OutOfMemory>
    ensures { IfOk result
        (λ unput. unput.items ≡ unput_names copier.now base.now.state.metadata
        (entries source.now.state.metadata)) }
{
    let mut unput = Vec::new(alloc);
    for index in 0..source.metadata_count() {
        let (name, _) = source.metadata_at(index);
        add_unput_name(alloc, copier, base, name, &mut unput)?;
    }
    Ok(unput)
}

// Clears the tiles at coordinates.
fn clear_coords(set: &mut Editing, coords: &[TileCoord]) -> Result<(), OutOfMemory>
    ensures tiles { OnOk result
        (set.new.state.tiles ≡ removed_all set.old.state.tiles (map place_at coords.now)) }
    ensures times { OnOk result
        (set.new.state.dates ≡ removed_all set.old.state.dates (map place_at coords.now)) }
    ensures names { OnOk result (set.new.state.metadata ≡ set.old.state.metadata) }
{
    for coord in coords {
        set.clear_tile(*coord)?;
    }
    Ok(())
}

// Clears names.
fn clear_names(set: &mut Editing, names: &[TextVal]) -> Result<(), OutOfMemory>
    ensures names { OnOk result (set.new.state.metadata ≡ removed_all set.old.state.metadata
        names.now) }
    ensures tiles { OnOk result (set.new.state.tiles ≡ set.old.state.tiles) }
    ensures times { OnOk result (set.new.state.dates ≡ set.old.state.dates) }
{
    for name in names {
        set.clear_metadata(name.as_str())?;
    }
    Ok(())
}

/// A source without the tiles and the names that aren't put into a set. No contents are copied.
pub(crate) fn put_of(
    alloc: Global,
    copier: &MbtilesCopier,
    source: Loaded,
    base: &Loaded,
) -> Result<Loaded, OutOfMemory>
    requires { IsSource source.state }
    ensures tiles { IfOk result
        (λ put. put.state.tiles ≡ tiles_to_put copier.now source.state.tiles base.now.state) }
    ensures times { IfOk result
        (λ put. put.state.dates ≡ times_to_put copier.now source.state base.now.state) }
    ensures names { IfOk result
        (λ put. put.state.metadata ≡ names_to_put copier.now source.state.metadata
        base.now.state.metadata) }
{
    let coords = unput_coords(alloc, copier, &source, base)?;
    let names = unput_names(alloc, copier, &source, base)?;
    let mut set = source.edit();
    clear_coords(&mut set, &coords)?;
    clear_names(&mut set, &names)?;
    set.settle()
}
