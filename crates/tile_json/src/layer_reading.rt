// The layers that a value of JSON lists.
ghost use Rattle.std.specs.Prelude.{◌≡◌, option_and_then, option_map};
ghost use Rattle.std.specs.FinMap as map;
ghost use Rattle.tile_json.specs.Common.{as_object, as_str, items_view, members_view, view};
ghost use Rattle.tile_json.specs.Errors.{Answers};
ghost use Rattle.tile_json.specs.LayerReading.{layer_of, layer_with, layers_in, layers_of, optional, zoom_of};
ghost use Rattle.tile_json.specs.Members.{with_texts};

use crate::members::{json_fields, take_member, text_fields};
use crate::{DocumentError, LayerList, TextFields, VectorLayer};
use base_values::TextVal;
use serde_json::{Map, Value};
use std::alloc::Global;

impl LayerList {
    ghost use Rattle.tile_json.specs.Common.{view};
    ghost use Rattle.tile_json.specs.Errors.{Answers};
    ghost use Rattle.tile_json.specs.LayerReading.{layers_of};

    /// The layers that a value of JSON lists (TileJSON 3.0.0, `vector_layers`). `Invalid` comes exactly where it isn't
    /// a list of objects, each with a text `id` and an object `fields` of texts, in which `description` is a text, and
    /// `minzoom` and `maxzoom` are 0 to 255, if they are there and aren't null.
    pub fn from_json(alloc: Global, value: Value) -> Result<LayerList, DocumentError>
        ensures { Answers (layers_of (view value)) result }
    {
        let Value::Array(items) = value else {
            return Err(DocumentError::Invalid);
        };
        let mut layers = Vec::with_capacity(alloc, items.len())?;
        for item in items {
            layers.push(layer(alloc, item)?)?;
        }
        Ok(LayerList::new(layers))
    }
}

// A layer that a value of JSON is.
fn layer(alloc: Global, value: Value) -> Result<VectorLayer, DocumentError>
    ensures { Answers (layer_of (view value)) result }
{
    match value {
        Value::Object(members) => layer_of_members(alloc, members),
        _ => Err(DocumentError::Invalid),
    }
}

// A layer of these members.
fn layer_of_members(
    alloc: Global,
    members: Map<String, Value>,
) -> Result<VectorLayer, DocumentError>
    ensures { Answers (layer_with (members_view members.entries)) result }
{
    let mut members = members;
    let id = text(take_member(&mut members, "id"))?;
    let fields = texts(alloc, take_member(&mut members, "fields"))?;
    let description = optional_text(take_member(&mut members, "description"))?;
    let minzoom = optional_zoom(take_member(&mut members, "minzoom"))?;
    let maxzoom = optional_zoom(take_member(&mut members, "maxzoom"))?;
    let other = json_fields(alloc, members)?;
    Ok(VectorLayer {
        id,
        fields,
        description,
        minzoom,
        maxzoom,
        other,
    })
}

// The text that a member is.
fn text(value: Option<Value>) -> Result<TextVal, DocumentError>
    ensures { Answers (option_and_then as_str (option_map view value)) result }
{
    match value {
        Some(Value::String(text)) => Ok(TextVal::new(text)),
        _ => Err(DocumentError::Invalid),
    }
}

// The texts of the object that a member is.
fn texts(alloc: Global, value: Option<Value>) -> Result<TextFields, DocumentError>
    ensures { Answers
        (option_and_then (with_texts map.empty) (option_and_then as_object (option_map view value)))
        result }
{
    match value {
        Some(Value::Object(members)) => text_fields(alloc, members),
        _ => Err(DocumentError::Invalid),
    }
}

// The text that a member is, if it is there and isn't null.
fn optional_text(value: Option<Value>) -> Result<Option<TextVal>, DocumentError>
    ensures { Answers (optional as_str (option_map view value)) result }
{
    match value {
        None | Some(Value::Null) => Ok(None),
        Some(Value::String(text)) => Ok(Some(TextVal::new(text))),
        _ => Err(DocumentError::Invalid),
    }
}

// The zoom that a member is, if it is there and isn't null.
fn optional_zoom(value: Option<Value>) -> Result<Option<u8>, DocumentError>
    ensures { Answers (optional zoom_of (option_map view value)) result }
{
    match value {
        None | Some(Value::Null) => Ok(None),
        Some(value) => match value.as_u64() {
            Some(zoom) if zoom < 256 => Ok(Some(zoom as u8)),
            _ => Err(DocumentError::Invalid),
        },
    }
}
