// The names of a loaded set's metadata that have no field of their own.
ghost use Rattle.std.specs.Prelude.{◌≡◌, IfOk, OnOk};
ghost use Rattle.mb_metadata.specs.Common.{insert, string, text_of};
ghost use Rattle.mb_metadata.specs.Others.{has_field, is_read_name, is_text_name, other_entry, others_said, with_entry};

use base_values::{OutOfMemory, TextVal};
use mb_loaded::Loaded;
use mb_store::Cell;
use serde_json::Value;
use std::alloc::Global;
use tile_json::{JsonFields, JsonVal};

// Whether the text of a name fills a field of the document.
fn is_text_name(name: &str) -> bool
    ensures { result ≡ is_text_name name.now }
{
    matches!(
        name,
        "name" | "version" | "description" | "attribution" | "legend" | "template"
    )
}

// Whether a name is read otherwise, or passed over.
fn is_read_name(name: &str) -> bool
    ensures { result ≡ is_read_name name.now }
{
    matches!(
        name,
        "bounds" | "center" | "minzoom" | "maxzoom" | "json" | "type" | "agg_tiles_hash" | "scheme"
    )
}

// Whether a name has a field of its own, or is passed over.
fn has_field(name: &str) -> bool
    ensures { result ≡ has_field name.now }
{
    is_text_name(name) || is_read_name(name)
}

// Puts a text at a name.
fn put_text(
    alloc: Global,
    fields: &mut JsonFields,
    name: &str,
    text: &str,
) -> Result<(), OutOfMemory>
    ensures { OnOk result (fields.new ≡ insert fields.old name.now (string text.now)) }
{
    let name = TextVal::new(String::from_str(alloc, name)?);
    let text = JsonVal::new(Value::String(String::from_str(alloc, text)?));
    fields.insert(name, text)
}

// Puts what a name says, where it has no field of its own.
fn add_other(
    alloc: Global,
    fields: &mut JsonFields,
    name: &str,
    value: &Cell,
) -> Result<(), OutOfMemory>
    ensures { OnOk result
        (fields.new ≡ with_entry fields.old (other_entry (name.now, text_of value.now))) }
{
    match value {
        Cell::Text(text) if !has_field(name) && !text.as_str().is_empty() => {
            put_text(alloc, fields, name, text.as_str())
        }
        _ => Ok(()),
    }
}

/// The names of a set that have no field of their own, with the texts that they say.
pub(crate) fn others_said(alloc: Global, set: &Loaded) -> Result<JsonFields, OutOfMemory>
    ensures { IfOk result (λ fields. fields ≡ others_said set.now.state.metadata) }
{
    let mut fields = JsonFields::new(alloc);
    for index in 0..set.metadata_count() {
        let (name, value) = set.metadata_at(index);
        add_other(alloc, &mut fields, name, value)?;
    }
    Ok(fields)
}
