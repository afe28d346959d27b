// Documents as texts of JSON: that which describes an archive (TileJSON), and the metadata of a set.
ghost use Rattle.std.specs.Prelude.{◌≡◌, IfOk, OnOk, option_copied, option_map, string_bytes};
ghost use Rattle.tile_command.specs.Common.{as_it_is, entries, IsTextOf, members_view, put, put_some, string, view, with_entries, zoom_data};
ghost use Rattle.tile_command.specs.HeaderLines.{bounds_text};
ghost use Rattle.tile_command.specs.Document.{bounds_data, cell_data, center_data, json_or_text, layer_members, names_data, names_members, numbers_data, texts_data, tilejson_data, with_extents, with_names, with_texts, with_zooms};

use crate::header_lines::{bounds_text, center_text};
use base_values::{OutOfMemory, TextVal};
use mb_loaded::Loaded;
use mb_metadata::layers_value;
use mb_tables::Cell;
use serde_json::{Map, Value};
use std::alloc::Global;
use tile_json::{JsonFields, LayerList, TileBounds, TileCenter, TileJson};

// The members of an object of JSON.
type Members = Map<String, Value>;

// Puts a value at a name.
fn put_value(
    alloc: Global,
    members: &mut Members,
    name: &str,
    value: Value,
) -> Result<(), OutOfMemory>
    ensures { OnOk result (members_view members.new.entries
        ≡ put name.now (view value) (members_view members.old.entries)) }
{
    Ok(serde_json::put(members, alloc, name, value)?)
}

// Puts a text at a name, if there is one.
fn put_text(
    alloc: Global,
    members: &mut Members,
    name: &str,
    text: Option<&TextVal>,
) -> Result<(), OutOfMemory>
    ensures { OnOk result (members_view members.new.entries
        ≡ put_some name.now (option_map string (option_copied text.entry))
        (members_view members.old.entries)) }
{
    match text {
        Some(text) => {
            let value = Value::try_from_str(alloc, text.as_str())?;
            put_value(alloc, members, name, value)
        }
        None => Ok(()),
    }
}

// Puts a zoom at a name, if there is one.
fn put_zoom(
    alloc: Global,
    members: &mut Members,
    name: &str,
    zoom: Option<u8>,
) -> Result<(), OutOfMemory>
    ensures { OnOk result (members_view members.new.entries
        ≡ put_some name.now (option_map zoom_data zoom) (members_view members.old.entries)) }
{
    match zoom {
        Some(zoom) => put_value(alloc, members, name, Value::from(zoom)),
        None => Ok(()),
    }
}

// The value that a text of JSON is, or the text itself where it is none.
fn json_or_text(alloc: Global, text: String) -> Result<Value, OutOfMemory>
    ensures { IfOk result (λ v. view v ≡ json_or_text (string_bytes text)) }
{
    match Value::from_str(alloc, text.as_str()) {
        Ok(value) => Ok(value),
        Err(error) if error.is_memory() => Err(OutOfMemory),
        Err(_) => Ok(Value::String(text)),
    }
}

// A list of the numbers that a text has, parted by commas.
fn numbers_value(alloc: Global, numbers: String) -> Result<Value, OutOfMemory>
    ensures { IfOk result (λ v. view v ≡ numbers_data (string_bytes numbers)) }
{
    let list = format!(in alloc; "[{numbers}]")?;
    json_or_text(alloc, list)
}

// The list of four numbers of degrees.
fn sides_value(
    alloc: Global,
    west: i32,
    south: i32,
    east: i32,
    north: i32,
) -> Result<Value, OutOfMemory>
    ensures { IfOk result (λ v. view v ≡ numbers_data (bounds_text west south east north)) }
{
    let numbers = bounds_text(alloc, west, south, east, north)?;
    numbers_value(alloc, numbers)
}

fn bounds_value(alloc: Global, bounds: &TileBounds) -> Result<Value, OutOfMemory>
    ensures { IfOk result (λ v. view v ≡ bounds_data bounds.now) }
{
    match bounds {
        TileBounds::Text(text) => Ok(Value::try_from_str(alloc, text.as_str())?),
        TileBounds::Whole {
            min_lon,
            min_lat,
            max_lon,
            max_lat,
        } => sides_value(alloc, *min_lon, *min_lat, *max_lon, *max_lat),
    }
}

fn center_value(alloc: Global, center: &TileCenter) -> Result<Value, OutOfMemory>
    ensures { IfOk result (λ v. view v ≡ center_data center.now) }
{
    match center {
        TileCenter::Text(text) => Ok(Value::try_from_str(alloc, text.as_str())?),
        TileCenter::Whole { lon, lat, zoom } => {
            let numbers = center_text(alloc, *lon, *lat, *zoom)?;
            numbers_value(alloc, numbers)
        }
    }
}

// Puts the bounds and the center, if they are said.
fn put_extents(alloc: Global, members: &mut Members, document: &TileJson) -> Result<(), OutOfMemory>
    ensures { OnOk result (members_view members.new.entries
        ≡ with_extents document.now (members_view members.old.entries)) }
{
    if let Some(bounds) = &document.bounds {
        let value = bounds_value(alloc, bounds)?;
        put_value(alloc, members, "bounds", value)?;
    }
    if let Some(center) = &document.center {
        let value = center_value(alloc, center)?;
        put_value(alloc, members, "center", value)?;
    }
    Ok(())
}

// Puts the texts that say what a set is.
fn put_names(alloc: Global, members: &mut Members, document: &TileJson) -> Result<(), OutOfMemory>
    ensures { OnOk result (members_view members.new.entries
        ≡ with_names document.now (members_view members.old.entries)) }
{
    put_text(alloc, members, "name", document.name.as_ref())?;
    put_text(alloc, members, "version", document.version.as_ref())?;
    put_text(alloc, members, "description", document.description.as_ref())
}

// Puts the other texts that are said.
fn put_texts(alloc: Global, members: &mut Members, document: &TileJson) -> Result<(), OutOfMemory>
    ensures { OnOk result (members_view members.new.entries
        ≡ with_texts document.now (members_view members.old.entries)) }
{
    put_text(alloc, members, "attribution", document.attribution.as_ref())?;
    put_text(alloc, members, "legend", document.legend.as_ref())?;
    put_text(alloc, members, "template", document.template.as_ref())
}

// Puts the zooms that are said.
fn put_zooms(alloc: Global, members: &mut Members, document: &TileJson) -> Result<(), OutOfMemory>
    ensures { OnOk result (members_view members.new.entries
        ≡ with_zooms document.now (members_view members.old.entries)) }
{
    put_zoom(alloc, members, "minzoom", document.minzoom)?;
    put_zoom(alloc, members, "maxzoom", document.maxzoom)
}

// The list of texts.
fn texts_value(alloc: Global, texts: &[TextVal]) -> Result<Value, OutOfMemory>
    ensures { IfOk result (λ v. view v ≡ texts_data texts.now) }
{
    let mut items = Vec::with_capacity(alloc, texts.len())?;
    for text in texts {
        items.push(Value::try_from_str(alloc, text.as_str())?)?;
    }
    Ok(Value::Array(items))
}

// The members of a document's layers, if it has any.
fn layer_members(alloc: Global, layers: Option<&LayerList>) -> Result<Members, OutOfMemory>
    ensures { IfOk result
        (λ m. members_view m.entries ≡ layer_members (option_copied layers.entry)) }
{
    let Some(layers) = layers else {
        return Ok(Map::new(alloc));
    };
    match layers_value(alloc, layers)? {
        Value::Object(members) => Ok(members),
        _ => Ok(Map::new(alloc)),
    }
}

// Members with all that has no field of its own.
fn with_others(alloc: Global, members: Members, others: &JsonFields) -> Result<Members, OutOfMemory>
    ensures { IfOk result (λ m. members_view m.entries
        ≡ with_entries as_it_is (members_view members.entries) (entries others.now)) }
{
    let mut members = members;
    for index in 0..others.len() {
        let (name, value) = others.at(index);
        let copy = value.as_value().clone()?;
        put_value(alloc, &mut members, name, copy)?;
    }
    Ok(members)
}

// The object that a document is.
fn tilejson_value(alloc: Global, document: &TileJson) -> Result<Value, OutOfMemory>
    ensures { IfOk result (λ v. view v ≡ tilejson_data document.now) }
{
    let layers = layer_members(alloc, document.vector_layers.as_ref())?;
    let mut members = with_others(alloc, layers, &document.other)?;
    let version = Value::try_from_str(alloc, "3.0.0")?;
    put_value(alloc, &mut members, "tilejson", version)?;
    let tiles = texts_value(alloc, document.tiles.as_slice())?;
    put_value(alloc, &mut members, "tiles", tiles)?;
    put_names(alloc, &mut members, document)?;
    put_texts(alloc, &mut members, document)?;
    put_zooms(alloc, &mut members, document)?;
    put_extents(alloc, &mut members, document)?;
    Ok(Value::Object(members))
}

/// A document as a text of JSON (TileJSON 3.0.0): the members that have no field of their own, and over them the
/// fields that are said. Degrees are numbers.
pub fn tilejson_text(alloc: Global, document: &TileJson) -> Result<String, OutOfMemory>
    ensures { IfOk result (λ t. IsTextOf (string_bytes t) (tilejson_data document.now)) }
{
    let value = tilejson_value(alloc, document)?;
    Ok(value.to_string(alloc)?)
}

// A cell of metadata as a value: a text, or null.
fn cell_value(alloc: Global, cell: &Cell) -> Result<Value, OutOfMemory>
    ensures { IfOk result (λ v. view v ≡ cell_data cell.now) }
{
    match cell {
        Cell::Text(text) => Ok(Value::try_from_str(alloc, text.as_str())?),
        _ => Ok(Value::Null),
    }
}

// The members that the names of a set's metadata are.
fn names_members(alloc: Global, set: &Loaded) -> Result<Members, OutOfMemory>
    ensures { IfOk result (λ m. members_view m.entries ≡ names_members set.now.state.metadata) }
{
    let mut members = Map::new(alloc);
    for index in 0..set.metadata_count() {
        let (name, cell) = set.metadata_at(index);
        let value = cell_value(alloc, cell)?;
        put_value(alloc, &mut members, name, value)?;
    }
    Ok(members)
}

/// The metadata of a set as a text of JSON: an object with each name's text, or null.
pub fn names_text(alloc: Global, set: &Loaded) -> Result<String, OutOfMemory>
    ensures { IfOk result (λ t. IsTextOf (string_bytes t) (names_data set.now.state.metadata)) }
{
    let value = Value::Object(names_members(alloc, set)?);
    Ok(value.to_string(alloc)?)
}
