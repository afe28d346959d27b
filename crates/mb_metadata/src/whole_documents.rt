// Documents in which no number is held as a float.
ghost use Rattle.std.specs.Prelude.{◌↔◌, IfSome, IsTrue};
ghost use Rattle.mb_metadata.specs.Inserting.{HasNoFloat, IsWithoutFloat, LayersHaveNoFloat};

use tile_json::{JsonFields, LayerList, TileJson, VectorLayer, has_float};

fn has_no_float(fields: &JsonFields) -> bool
    ensures { IsTrue result ↔ HasNoFloat fields.now }
{
    for index in 0..fields.len() {
        if has_float(fields.at(index).1.as_value()) {
            return false;
        }
    }
    true
}

fn layers_have_no_float(layers: &[VectorLayer]) -> bool
    ensures { IsTrue result ↔ LayersHaveNoFloat layers.now }
{
    for layer in layers {
        if !has_no_float(&layer.other) {
            return false;
        }
    }
    true
}

fn any_have_no_float(layers: &Option<LayerList>) -> bool
    ensures { IsTrue result ↔ IfSome layers.now LayersHaveNoFloat }
{
    match layers {
        Some(layers) => layers_have_no_float(layers.as_slice()),
        None => true,
    }
}

/// Whether no number of the document's values of JSON is held as a float, as `insert_metadata` asks.
pub fn is_without_float(document: &TileJson) -> bool
    ensures { IsTrue result ↔ IsWithoutFloat document.now }
{
    if !has_no_float(&document.other) {
        return false;
    }
    any_have_no_float(&document.vector_layers)
}
