// The JSON of layers of vector tiles.
ghost use Rattle.std.specs.Prelude.{◌≡◌, IfOk, OnOk, map, option_copied, option_map};
ghost use Rattle.mb_metadata.specs.LayerJson.{layer_data, layers_data, put_some, zoom_data};
ghost use Rattle.mb_metadata.specs.Common.{members_view, string, view};
ghost use Rattle.serde_json.specs.Data.{put as with_member};

use crate::json_object::{json_members, text_members};
use base_values::{OutOfMemory, TextVal};
use serde_json::{Map, Value};
use std::alloc::Global;
use tile_json::{LayerList, VectorLayer};

// Puts a value at a name.
fn put_value(
    alloc: Global,
    members: &mut Map<String, Value>,
    name: &str,
    value: Value,
) -> Result<(), OutOfMemory>
    ensures { OnOk result (members_view members.new.entries
        ≡ with_member name.now (view value) (members_view members.old.entries)) }
{
    Ok(serde_json::put(members, alloc, name, value)?)
}

// Puts a text at a name.
fn put_text(
    alloc: Global,
    members: &mut Map<String, Value>,
    name: &str,
    text: &TextVal,
) -> Result<(), OutOfMemory>
    ensures { OnOk result (members_view members.new.entries
        ≡ with_member name.now (string text.now) (members_view members.old.entries)) }
{
    let value = Value::try_from_str(alloc, text.as_str())?;
    put_value(alloc, members, name, value)
}

// Puts a text at a name, if there is one.
fn put_any_text(
    alloc: Global,
    members: &mut Map<String, Value>,
    name: &str,
    text: Option<&TextVal>,
) -> Result<(), OutOfMemory>
    ensures { OnOk result (members_view members.new.entries
        ≡ put_some name.now (option_map string (option_copied text.entry))
        (members_view members.old.entries)) }
{
    match text {
        Some(text) => put_text(alloc, members, name, text),
        None => Ok(()),
    }
}

// Puts a zoom at a name, if there is one.
fn put_any_zoom(
    alloc: Global,
    members: &mut Map<String, Value>,
    name: &str,
    zoom: Option<u8>,
) -> Result<(), OutOfMemory>
    ensures { OnOk result (members_view members.new.entries
        ≡ put_some name.now (option_map zoom_data zoom) (members_view members.old.entries)) }
{
    match zoom {
        Some(zoom) => put_value(alloc, members, name, Value::from(zoom)),
        None => Ok(()),
    }
}

// The object of a layer: its members without fields of their own, and over them the fields that are there.
fn layer_value(alloc: Global, layer: &VectorLayer) -> Result<Value, OutOfMemory>
    ensures { IfOk result (λ v. view v ≡ layer_data layer.now) }
{
    let mut members = json_members(alloc, &layer.other)?;
    put_text(alloc, &mut members, "id", &layer.id)?;
    let fields = Value::Object(text_members(alloc, &layer.fields)?);
    put_value(alloc, &mut members, "fields", fields)?;
    put_any_text(
        alloc,
        &mut members,
        "description",
        layer.description.as_ref(),
    )?;
    put_any_zoom(alloc, &mut members, "minzoom", layer.minzoom)?;
    put_any_zoom(alloc, &mut members, "maxzoom", layer.maxzoom)?;
    Ok(Value::Object(members))
}

// The objects of layers in their order.
fn layer_values(alloc: Global, layers: &[VectorLayer]) -> Result<Vec<Value>, OutOfMemory>
    ensures { IfOk result (λ items. map view items.items ≡ map layer_data layers.now) }
{
    let mut items = Vec::with_capacity(alloc, layers.len())?;
    for layer in layers {
        items.push(layer_value(alloc, layer)?)?;
    }
    Ok(items)
}

/// An object with the list of layers under `vector_layers`.
pub fn layers_value(alloc: Global, layers: &LayerList) -> Result<Value, OutOfMemory>
    ensures { IfOk result (λ v. view v ≡ layers_data layers.now) }
{
    let items = Value::Array(layer_values(alloc, layers.as_slice())?);
    let mut members = Map::new(alloc);
    put_value(alloc, &mut members, "vector_layers", items)?;
    Ok(Value::Object(members))
}
