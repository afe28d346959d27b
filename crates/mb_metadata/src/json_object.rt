// Objects of JSON that have the entries of maps.
ghost use Rattle.std.specs.Prelude.{◌≡◌, IfOk};
ghost use Rattle.mb_metadata.specs.Common.{entries, members_view, no_members, string};
ghost use Rattle.mb_metadata.specs.LayerJson.{as_it_is, with_entries};

use base_values::OutOfMemory;
use serde_json::{Map, Value};
use std::alloc::Global;
use tile_json::{JsonFields, TextFields};

/// The members of a map of values.
pub(crate) fn json_members(
    alloc: Global,
    fields: &JsonFields,
) -> Result<Map<String, Value>, OutOfMemory>
    ensures { IfOk result
        (λ m. members_view m.entries ≡ with_entries as_it_is no_members (entries fields.now)) }
{
    let mut members = Map::new(alloc);
    for index in 0..fields.len() {
        let (name, value) = fields.at(index);
        let copy = value.as_value().clone()?;
        serde_json::put(&mut members, alloc, name, copy)?;
    }
    Ok(members)
}

/// The members of a map of texts.
pub(crate) fn text_members(
    alloc: Global,
    fields: &TextFields,
) -> Result<Map<String, Value>, OutOfMemory>
    ensures { IfOk result
        (λ m. members_view m.entries ≡ with_entries string no_members (entries fields.now)) }
{
    let mut members = Map::new(alloc);
    for index in 0..fields.len() {
        let (name, text) = fields.at(index);
        let copy = Value::try_from_str(alloc, text.as_str())?;
        serde_json::put(&mut members, alloc, name, copy)?;
    }
    Ok(members)
}
