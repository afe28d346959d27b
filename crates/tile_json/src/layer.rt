// The layers of vector tiles.
ghost use Rattle.std.specs.Prelude.{◌≡◌};

use crate::{JsonFields, TextFields};
use base_values::TextVal;
use std::marker::Model;

/// A layer of vector tiles (TileJSON 3.0.0, `vector_layers`).
#[derive(Debug, Drop)]
pub struct VectorLayer {
    /// The name of the layer.
    pub id: TextVal,
    /// The names of the attributes of its features, each with a text on it.
    pub fields: TextFields,
    /// What it is.
    pub description: Option<TextVal>,
    /// The least zoom at which it is there.
    pub minzoom: Option<u8>,
    /// The greatest zoom at which it is there.
    pub maxzoom: Option<u8>,
    /// All that has none of these names.
    pub other: JsonFields,
}

/// Layers in an order.
#[derive(Debug, Drop)]
pub struct LayerList {
    layers: Vec<VectorLayer>,
}

impl Model for LayerList {
    ghost use Rattle.std.specs.Prelude.{List};
    ghost use Rattle.tile_json.specs.Common.{coded_list};
    ghost use Rattle.tile_json.specs.declared.layer.VectorLayer.{VectorLayer};
    ghost use Rattle.tile_json.specs.contracts.layer.VectorLayer as layer;

    ghost Value = { List VectorLayer };

    ghost coded = { coded_list layer.the_row.coded };

    ghost view = { λ l. l.layers.items };
}

impl LayerList {
    /// The list of these layers.
    pub fn new(layers: Vec<VectorLayer>) -> LayerList
        ensures { result ≡ layers.items }
    {
        LayerList { layers }
    }

    /// The layers in order.
    pub fn as_slice(&self) -> &[VectorLayer]
        ensures { result.now ≡ self.now }
    {
        self.layers.as_slice()
    }

    /// The layers in order, taken out.
    pub fn into_vec(self) -> Vec<VectorLayer>
        ensures { result.items ≡ self }
    {
        self.layers
    }
}
