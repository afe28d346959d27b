// What a tile set says of itself.
use base_values::TextVal;
use tile_json::{JsonVal, TileJson};

/// What a tile set says of itself (MBTiles 1.3 and TileJSON 3.0.0). A field that isn't said is None.
#[derive(Debug, Drop)]
pub struct Metadata {
    /// The name of the set's file.
    pub id: TextVal,
    /// What kind of layer the set is, as `overlay` or `baselayer`: the text of `type`.
    pub layer_type: Option<TextVal>,
    /// The document: texts, zooms, layers, and all names that have no field here or there, as texts.
    pub tilejson: TileJson,
    /// The value of JSON of the name `json`, without its layers.
    pub json: Option<JsonVal>,
    /// The hash of all tiles, as it is stored.
    pub agg_tiles_hash: Option<TextVal>,
}
