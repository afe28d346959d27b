// What the JSON of a loaded set's metadata says: its layers, and all else.
ghost use Rattle.std.specs.Prelude.{◌≡◌, IfOk, option_and_then};
ghost use Rattle.mb_metadata.specs.SaidJson.{all_else, is_bare, json_said, layers_in, layers_said, unless_bare, value_said};
ghost use Rattle.mb_metadata.specs.Common.{layers_of, whole_data};

use crate::said::said;
use base_values::OutOfMemory;
use mb_loaded::Loaded;
use serde_json::Value;
use std::alloc::Global;
use tile_json::{DocumentError, JsonVal, LayerList};

/// What the JSON of a set says.
#[derive(Drop)]
pub(crate) struct SaidJson {
    /// The layers that it lists.
    pub(crate) layers: Option<LayerList>,
    /// What is left without them.
    pub(crate) json: Option<JsonVal>,
}

// The value that a text of JSON is. None where it is none in which no number is held as a float.
fn value_in(alloc: Global, text: &str) -> Result<Option<JsonVal>, OutOfMemory>
    ensures { IfOk result (λ value. value ≡ whole_data text.now) }
{
    match JsonVal::from_text(alloc, text) {
        Ok(value) => Ok(Some(value)),
        Err(DocumentError::Invalid) => Ok(None),
        Err(DocumentError::OutOfMemory) => Err(OutOfMemory),
    }
}

// The value of JSON that a set says.
fn value_said(alloc: Global, set: &Loaded) -> Result<Option<JsonVal>, OutOfMemory>
    ensures { IfOk result (λ value. value ≡ value_said set.now.state.metadata) }
{
    match said(set, "json") {
        Some(text) => value_in(alloc, text.as_str()),
        None => Ok(None),
    }
}

// The layers that a value lists, where it is there and lists layers.
fn layers_of(alloc: Global, value: Option<JsonVal>) -> Result<Option<LayerList>, OutOfMemory>
    ensures { IfOk result (λ layers. layers ≡ option_and_then layers_of value) }
{
    let Some(value) = value else {
        return Ok(None);
    };
    match LayerList::from_json(alloc, value.into_value()) {
        Ok(layers) => Ok(Some(layers)),
        Err(DocumentError::Invalid) => Ok(None),
        Err(DocumentError::OutOfMemory) => Err(OutOfMemory),
    }
}

// Whether a value is an object without members.
fn is_bare(value: &JsonVal) -> bool
    ensures { result ≡ is_bare value.now }
{
    match value.as_value() {
        Value::Object(members) => members.is_empty(),
        _ => false,
    }
}

// A value, None where it is an object without members.
fn unless_bare(value: JsonVal) -> Option<JsonVal>
    ensures { result ≡ unless_bare value }
{
    if is_bare(&value) { None } else { Some(value) }
}

// The layers that a value lists, and what is left without them.
fn parted(alloc: Global, value: JsonVal) -> Result<SaidJson, OutOfMemory>
    ensures layers { IfOk result (λ parts. parts.layers ≡ layers_in value) }
    ensures json { IfOk result (λ parts. parts.json ≡ all_else value) }
{
    let (left, taken) = value.without_member("vector_layers");
    let layers = layers_of(alloc, taken)?;
    Ok(SaidJson {
        layers,
        json: unless_bare(left),
    })
}

/// What the JSON of a set says: its layers, and what is left without them.
pub(crate) fn json_said(alloc: Global, set: &Loaded) -> Result<SaidJson, OutOfMemory>
    ensures layers { IfOk result (λ parts. parts.layers ≡ layers_said set.now.state.metadata) }
    ensures json { IfOk result (λ parts. parts.json ≡ json_said set.now.state.metadata) }
{
    match value_said(alloc, set)? {
        Some(value) => parted(alloc, value),
        None => Ok(SaidJson {
            layers: None,
            json: None,
        }),
    }
}
