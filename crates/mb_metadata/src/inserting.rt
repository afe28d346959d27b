// Putting what a document says into the metadata of a set.
ghost use Rattle.mb_metadata.specs.Common.{FaultsCounted, IsBegun, Keeps};
ghost use Rattle.std.specs.Prelude.{◌≡◌, IfOk, OnErr, OnOk, option_copied, true};
ghost use Rattle.mb_metadata.specs.Inserting.{HasNoFloat, IsWithoutFloat, document_edits, insert_edits, other_edits, then_extents, then_put, then_texts};
ghost use Rattle.mb_metadata.specs.NameEdits.{EditsNames, done_answer, held_edited};

use crate::document_text::{any_bounds, any_center, any_layers, any_zoom, data_text};
use crate::name_edits::{NameEdit, after_edits, commit_edits};
use base_values::{OutOfMemory, TextVal};
use mb_load::load;
use mb_loaded::Loaded;
use mb_store::{MbtError, MbtResult, TileStore};
use std::alloc::Global;
use tile_json::{JsonFields, TileJson};

// Puts a text under a name, if there is one.
fn then_put(
    alloc: Global,
    edits: &mut Vec<NameEdit>,
    name: &str,
    text: Option<TextVal>,
) -> Result<(), OutOfMemory>
    ensures { OnOk result (edits.new.items ≡ then_put edits.old.items name.now text) }
{
    match text {
        Some(text) => Ok(edits.push(NameEdit::put(alloc, name, text)?)?),
        None => Ok(()),
    }
}

// Puts a copy of a text under a name, if there is one.
fn then_copy(
    alloc: Global,
    edits: &mut Vec<NameEdit>,
    name: &str,
    text: Option<&TextVal>,
) -> Result<(), OutOfMemory>
    ensures { OnOk result
        (edits.new.items ≡ then_put edits.old.items name.now (option_copied text.entry)) }
{
    match text {
        Some(text) => then_put(alloc, edits, name, Some(text.try_clone(alloc)?)),
        None => Ok(()),
    }
}

// The edits of what has no field of its own.
fn other_edits(alloc: Global, other: &JsonFields) -> Result<Vec<NameEdit>, OutOfMemory>
    requires { HasNoFloat other.now }
    ensures { IfOk result (λ edits. edits.items ≡ other_edits other.now) }
{
    let mut edits = Vec::with_capacity(alloc, other.len())?;
    for index in 0..other.len() {
        let (name, value) = other.at(index);
        let text = data_text(alloc, value)?;
        edits.push(NameEdit::put(alloc, name, text)?)?;
    }
    Ok(edits)
}

// Adds the edits of the texts of a document.
fn then_texts(
    alloc: Global,
    edits: &mut Vec<NameEdit>,
    document: &TileJson,
) -> Result<(), OutOfMemory>
    ensures { OnOk result (edits.new.items ≡ then_texts edits.old.items document.now) }
{
    then_copy(alloc, edits, "name", document.name.as_ref())?;
    then_copy(alloc, edits, "version", document.version.as_ref())?;
    then_copy(alloc, edits, "description", document.description.as_ref())?;
    then_copy(alloc, edits, "attribution", document.attribution.as_ref())?;
    then_copy(alloc, edits, "legend", document.legend.as_ref())?;
    then_copy(alloc, edits, "template", document.template.as_ref())
}

// Adds the edits of the bounds, the center and the zooms of a document.
fn then_extents(
    alloc: Global,
    edits: &mut Vec<NameEdit>,
    document: &TileJson,
) -> Result<(), OutOfMemory>
    ensures { OnOk result (edits.new.items ≡ then_extents edits.old.items document.now) }
{
    let bounds = any_bounds(alloc, document.bounds.as_ref())?;
    let center = any_center(alloc, document.center.as_ref())?;
    let minzoom = any_zoom(alloc, document.minzoom)?;
    let maxzoom = any_zoom(alloc, document.maxzoom)?;
    then_put(alloc, edits, "bounds", bounds)?;
    then_put(alloc, edits, "center", center)?;
    then_put(alloc, edits, "minzoom", minzoom)?;
    then_put(alloc, edits, "maxzoom", maxzoom)
}

// All edits of a document.
fn document_edits(alloc: Global, document: &TileJson) -> Result<Vec<NameEdit>, OutOfMemory>
    requires { IsWithoutFloat document.now }
    ensures { IfOk result (λ edits. edits.items ≡ document_edits document.now) }
{
    let mut edits = other_edits(alloc, &document.other)?;
    then_texts(alloc, &mut edits, document)?;
    then_extents(alloc, &mut edits, document)?;
    let layers = any_layers(alloc, document.vector_layers.as_ref())?;
    then_put(alloc, &mut edits, "json", layers)?;
    Ok(edits)
}

/// A loaded set with what a document says in its metadata, as `insert_metadata` puts it into that of a store. Nothing
/// is committed. Only running out of memory refuses it.
///
/// No number of the given values of JSON is held as a float by `serde_json`.
pub fn with_document(
    alloc: Global,
    set: Loaded,
    tile_json: &TileJson,
) -> Result<Loaded, OutOfMemory>
    requires { IsWithoutFloat tile_json.now }
    ensures { IfOk result (λ h. h ≡ held_edited set (document_edits tile_json.now)) }
{
    let edits = document_edits(alloc, tile_json)?;
    Ok(after_edits(set, edits)?)
}

/// Puts what a document says into the metadata of a set, in one commit: each entry of `other` under its name, a text as
/// it is and another value as its compact JSON; then the texts `name`, `version`, `description`, `attribution`,
/// `legend` and `template`; `bounds` and `center`, as their numbers parted by commas or as their text; `minzoom` and
/// `maxzoom` in decimal; and under `json` the compact JSON of an object with the list `vector_layers`. A field that
/// isn't there puts nothing, and a field counts over an entry of `other` of its name. In the object of a layer each
/// field that is there counts over an entry of its `other`.
///
/// No number of the given values of JSON is held as a float by `serde_json`. It answers the refusals of `load`;
/// refused, the store holds what it held. All other rows stay as they were. Where `other` has `hash_algorithm`,
/// the set may load no more.
pub fn insert_metadata<S: TileStore>(
    alloc: Global,
    store: &mut S,
    tile_json: &TileJson,
) -> MbtResult<()>
    requires { IsWithoutFloat tile_json.now }
    ensures answer { IsBegun done_answer (S.tells store.old) (S.told store.old) result }
    ensures committed { S.tells store.old ≡ true → OnOk result
        (EditsNames (insert_edits tile_json.now) (S.told store.old) (S.told store.new)) }
    ensures refused { OnErr result (S.told store.new ≡ S.told store.old) }
    ensures kept { Keeps S.tells S.faults S.steady store.old store.new }
    ensures fault { FaultsCounted S.faults store.old store.new result MbtError.StoreFault }
{
    let set = load(alloc, store)?;
    let edits = document_edits(alloc, tile_json)?;
    commit_edits(alloc, store, set, edits)?;
    Ok(())
}
