// What a tile set says of itself.
use crate::{JsonFields, LayerList, TileBounds, TileCenter};
use base_values::{TextList, TextVal};

/// What a tile set says of itself (TileJSON 3.0.0). A field that isn't said is None.
#[derive(Debug, Drop)]
pub struct TileJson {
    /// Where the tiles are to be had.
    pub tiles: TextList,
    /// The name of the set.
    pub name: Option<TextVal>,
    /// The version of the set.
    pub version: Option<TextVal>,
    /// What the set is.
    pub description: Option<TextVal>,
    /// Whom it is owed to.
    pub attribution: Option<TextVal>,
    /// What its signs mean.
    pub legend: Option<TextVal>,
    /// How texts on its features are made.
    pub template: Option<TextVal>,
    /// The least zoom of the tiles, 0 to 255.
    pub minzoom: Option<u8>,
    /// The greatest zoom of the tiles, 0 to 255.
    pub maxzoom: Option<u8>,
    /// The bounds of the tiles.
    pub bounds: Option<TileBounds>,
    /// The place to begin with.
    pub center: Option<TileCenter>,
    /// The layers of vector tiles.
    pub vector_layers: Option<LayerList>,
    /// All that has none of these names.
    pub other: JsonFields,
}
