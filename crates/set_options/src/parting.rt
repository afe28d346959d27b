// The members of an archive's metadata in two parts.
ghost use Rattle.std.specs.Prelude.{◌≡◌, IfOk, OnOk, string_bytes};
ghost use Rattle.set_options.specs.Parting.{kept_in, names_in, with_kept, with_name};
ghost use Rattle.set_options.specs.Common.{members_view, string, view};

use crate::is_left_out;
use base_values::{OutOfMemory, TextVal};
use serde_json::{Map, Value};
use std::alloc::Global;
use tile_json::{JsonFields, JsonVal};

/// The texts that become names of a set, and the members that its `json` keeps.
#[derive(Drop)]
pub(crate) struct Parts {
    pub(crate) names: JsonFields,
    pub(crate) kept: Map<String, Value>,
}

// Puts a text among the names, or among what is kept where its name is left out.
fn put_text(
    alloc: Global,
    names: &mut JsonFields,
    kept: &mut Map<String, Value>,
    name: String,
    text: String,
) -> Result<(), OutOfMemory>
    ensures names { OnOk result
        (names.new ≡ with_name names.old (string_bytes name) (string (string_bytes text))) }
    ensures kept { OnOk result (members_view kept.new.entries
        ≡ with_kept (members_view kept.old.entries) (string_bytes name)
        (string (string_bytes text))) }
{
    let value = Value::String(text);
    if is_left_out(name.as_str()) {
        Ok(serde_json::put(kept, alloc, name.as_str(), value)?)
    } else {
        names.insert(TextVal::new(name), JsonVal::new(value))
    }
}

// Puts a member where it belongs.
fn put_member(
    alloc: Global,
    names: &mut JsonFields,
    kept: &mut Map<String, Value>,
    name: String,
    value: Value,
) -> Result<(), OutOfMemory>
    ensures names { OnOk result
        (names.new ≡ with_name names.old (string_bytes name) (view value)) }
    ensures kept { OnOk result (members_view kept.new.entries
        ≡ with_kept (members_view kept.old.entries) (string_bytes name) (view value)) }
{
    match value {
        Value::String(text) => put_text(alloc, names, kept, name, text),
        value => Ok(serde_json::put(kept, alloc, name.as_str(), value)?),
    }
}

/// All members in their parts.
pub(crate) fn parted(alloc: Global, members: Map<String, Value>) -> Result<Parts, OutOfMemory>
    ensures names { IfOk result (λ parts. parts.names ≡ names_in (members_view members.entries)) }
    ensures kept { IfOk result
        (λ parts. members_view parts.kept.entries ≡ kept_in (members_view members.entries)) }
{
    let mut names = JsonFields::new(alloc);
    let mut kept = Map::new(alloc);
    for (name, value) in members {
        put_member(alloc, &mut names, &mut kept, name, value)?;
    }
    Ok(Parts { names, kept })
}
