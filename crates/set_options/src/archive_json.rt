// The metadata of an archive, as an object of JSON.
ghost use Rattle.std.specs.Prelude.{◌≡◌, codes, IfOk, OnOk, Some, unwrap_or};
ghost use Rattle.set_options.specs.Common.{as_object, members_view, no_members, text_at, view};
ghost use Rattle.set_options.specs.ArchiveJson.{archive_data, archive_members, is_left_out, members_in, with_name, IsTextOf};

use crate::set_names::HasNames;
use base_values::{OutOfMemory, TextVal};
use mb_store::Cell;
use serde_json::{Map, Value};
use std::alloc::Global;

/// Whether a name of a set's metadata says nothing beside the tiles of its archive: the header says it, `json` stands
/// for it, or it is of the set alone.
pub fn is_left_out(name: &str) -> bool
    ensures { result ≡ is_left_out name.now }
{
    matches!(
        name,
        "format"
            | "minzoom"
            | "maxzoom"
            | "bounds"
            | "center"
            | "json"
            | "scheme"
            | "hash_algorithm"
            | "agg_tiles_hash"
            | "agg_tiles_hash_before_apply"
            | "agg_tiles_hash_after_apply"
    )
}

// Puts what a name says.
fn put_name(
    alloc: Global,
    members: &mut Map<String, Value>,
    name: &str,
    value: &Cell,
) -> Result<(), OutOfMemory>
    ensures { OnOk result (members_view members.new.entries
        ≡ with_name (members_view members.old.entries) name.now value.now) }
{
    match value {
        Cell::Text(text) if !is_left_out(name) => {
            let text = Value::try_from_str(alloc, text.as_str())?;
            Ok(serde_json::put(members, alloc, name, text)?)
        }
        _ => Ok(()),
    }
}

// The members of a value, none where it is no object.
fn members_within(alloc: Global, value: Value) -> Map<String, Value>
    ensures { members_view result.entries ≡ unwrap_or (as_object (view value)) no_members }
{
    match value {
        Value::Object(members) => members,
        _ => Map::new(alloc),
    }
}

// The members of the object of JSON that a text is, none where it is no object.
fn members_of(alloc: Global, text: &str) -> Result<Map<String, Value>, OutOfMemory>
    ensures { IfOk result (λ m. members_view m.entries ≡ members_in (Some text.now)) }
{
    match Value::from_str(alloc, text) {
        Ok(value) => Ok(members_within(alloc, value)),
        Err(error) if error.is_memory() => Err(OutOfMemory),
        Err(_) => Ok(Map::new(alloc)),
    }
}

// The members that the name `json` says.
fn members_said<N: HasNames>(alloc: Global, names: &N) -> Result<Map<String, Value>, OutOfMemory>
    ensures { IfOk result
        (λ m. members_view m.entries ≡ members_in (text_at (N.names names.now) (codes "json"))) }
{
    match names.said("json") {
        Some(text) => members_of(alloc, text.as_str()),
        None => Ok(Map::new(alloc)),
    }
}

// All members of an archive's metadata.
fn archive_members<N: HasNames>(alloc: Global, names: &N) -> Result<Map<String, Value>, OutOfMemory>
    ensures { IfOk result (λ m. members_view m.entries ≡ archive_members (N.names names.now)) }
{
    let mut members = members_said(alloc, names)?;
    for index in 0..names.name_count() {
        let (name, value) = names.name_at(index);
        put_name(alloc, &mut members, name, value)?;
    }
    Ok(members)
}

/// The text of an archive's metadata.
pub(crate) fn archive_text<N: HasNames>(alloc: Global, names: &N) -> Result<TextVal, OutOfMemory>
    ensures { IfOk result (λ text. IsTextOf text (archive_data (N.names names.now))) }
{
    let value = Value::Object(archive_members(alloc, names)?);
    Ok(TextVal::new(value.to_string(alloc)?))
}
