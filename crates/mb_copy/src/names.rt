// The metadata of a set into which another one is copied.
ghost use Rattle.std.specs.Prelude.{◌≡◌, ◌<◌, ◌||◌, IfOk, IfSome, OnOk, Some, None, cond, slice_get};
ghost use Rattle.mb_copy.specs.Common.{aggregate, entries, from_last, len, name_of};
ghost use Rattle.mb_copy.specs.Copied.{stores_aggregate, text_entries};
ghost use Rattle.mb_copy.specs.CopyWords.{copies_metadata};
ghost use Rattle.mb_copy.specs.HeldCopied.{held_with_names, name_put};

use crate::MbtilesCopier;
use base_values::{OutOfMemory, TextVal};
use mb_loaded::{Editing, Loaded};
use mb_store::{AGG_TILES_HASH, Cell, HASH_ALGORITHM};
use std::alloc::Global;
use tile_hash::HashAlgorithm;

// Puts the name at an index of what is put.
fn put_name(alloc: Global, set: &mut Editing, put: &Loaded, index: usize) -> Result<(), OutOfMemory>
    requires { index < len put.now.state.metadata }
    ensures { OnOk result (IfSome (slice_get (entries put.now.state.metadata) index)
        (λ e. set.new ≡ name_put set.old e)) }
{
    let (name, value) = put.metadata_at(index);
    let name = TextVal::new(String::from_str(alloc, name)?);
    set.set_metadata(name, value.try_clone(alloc)?)
}

// Puts all names, from the last to the first.
fn put_names(alloc: Global, set: &mut Editing, put: &Loaded) -> Result<(), OutOfMemory>
    ensures { OnOk result (set.new ≡ from_last name_put set.old (entries put.now.state.metadata)) }
{
    let mut left = put.metadata_count();
    while left > 0 {
        left -= 1;
        put_name(alloc, set, put, left)?;
    }
    Ok(())
}

// Puts a text under a name, if there is one.
fn put_text(
    alloc: Global,
    set: &mut Editing,
    name: &str,
    text: Option<TextVal>,
) -> Result<(), OutOfMemory>
    ensures { OnOk result (set.new ≡ from_last name_put set.old (text_entries name.now text)) }
{
    match text {
        Some(text) => {
            let name = TextVal::new(String::from_str(alloc, name)?);
            set.set_metadata(name, Cell::Text(text))
        }
        None => Ok(()),
    }
}

/// Whether the hash of all tiles is computed and stored.
pub(crate) fn stores_aggregate(copier: &MbtilesCopier) -> bool
    ensures { result ≡ stores_aggregate copier.now }
{
    copier.copy.copy_tiles() && !copier.skip_agg_tiles_hash
}

// The hash of all tiles of a set, where it is stored.
fn aggregate_to_store(
    alloc: Global,
    copier: &MbtilesCopier,
    set: &Loaded,
) -> Result<Option<TextVal>, OutOfMemory>
    ensures { IfOk result
        (λ text. text ≡ cond (stores_aggregate copier.now)
        (Some (aggregate set.now.state.algorithm set.now.state.tiles)) None) }
{
    if stores_aggregate(copier) {
        return Ok(Some(set.aggregate(alloc)?));
    }
    Ok(None)
}

// Whether the algorithm of a set is stored, that was made for the copy or not.
fn stores_algorithm(copier: &MbtilesCopier, made: bool) -> bool
    ensures { result ≡ (copies_metadata copier.now.copy || made || stores_aggregate copier.now) }
{
    copier.copy.copy_metadata() || made || stores_aggregate(copier)
}

// The name of an algorithm, where it is stored in a set, that was made for the copy or not.
fn algorithm_to_store(
    alloc: Global,
    copier: &MbtilesCopier,
    made: bool,
    algorithm: HashAlgorithm,
) -> Result<Option<TextVal>, OutOfMemory>
    ensures { IfOk result
        (λ text. text ≡ cond (copies_metadata copier.now.copy || made || stores_aggregate
        copier.now) (Some (name_of algorithm)) None) }
{
    if stores_algorithm(copier, made) {
        let name = String::from_str(alloc, algorithm.as_str())?;
        return Ok(Some(TextVal::new(name)));
    }
    Ok(None)
}

/// A set with the names that are put over its own, the computed hash of all its tiles and the name of its algorithm
/// over them, as far as these are stored.
pub(crate) fn with_names(
    alloc: Global,
    copier: &MbtilesCopier,
    made: bool,
    set: Loaded,
    put: &Loaded,
) -> Result<Loaded, OutOfMemory>
    ensures { IfOk result (λ h. h ≡ held_with_names copier.now made set put.now.state.metadata) }
{
    let hash = aggregate_to_store(alloc, copier, &set)?;
    let algorithm = algorithm_to_store(alloc, copier, made, set.algorithm())?;
    let mut editing = set.edit();
    put_names(alloc, &mut editing, put)?;
    put_text(alloc, &mut editing, AGG_TILES_HASH, hash)?;
    put_text(alloc, &mut editing, HASH_ALGORITHM, algorithm)?;
    editing.settle()
}
