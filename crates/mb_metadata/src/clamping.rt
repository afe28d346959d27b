// The zooms that a set says, by those of its tiles.
ghost use Rattle.std.specs.Prelude.{◌≡◌, option_map};
ghost use Rattle.mb_metadata.specs.Clamping.{document_within, layer_within, layers_within, maxzoom_within, minzoom_within};

use tile_json::{LayerList, TileJson, VectorLayer};

// The least zoom: of the tiles, or a lesser one that is said. That which is said where there are no tiles.
fn minzoom_within(tiles: Option<(u8, u8)>, minzoom: Option<u8>, maxzoom: Option<u8>) -> Option<u8>
    ensures { result ≡ minzoom_within tiles minzoom maxzoom }
{
    let Some((least, greatest)) = tiles else {
        return minzoom;
    };
    Some(least.min(maxzoom.unwrap_or(greatest).min(minzoom.unwrap_or(least))))
}

// The greatest zoom: the greatest that is said, but none outside the tiles. That which is said
// where there are no tiles.
fn maxzoom_within(tiles: Option<(u8, u8)>, minzoom: Option<u8>, maxzoom: Option<u8>) -> Option<u8>
    ensures { result ≡ maxzoom_within tiles minzoom maxzoom }
{
    let Some((least, greatest)) = tiles else {
        return maxzoom;
    };
    Some(greatest.min(least.max(maxzoom.unwrap_or(greatest).max(minzoom.unwrap_or(least)))))
}

// A layer by the zooms that it says itself.
fn layer_within(tiles: Option<(u8, u8)>, layer: &mut VectorLayer)
    ensures { layer.new ≡ layer_within tiles layer.old }
{
    let minzoom = minzoom_within(tiles, layer.minzoom, layer.maxzoom);
    let maxzoom = maxzoom_within(tiles, layer.minzoom, layer.maxzoom);
    layer.minzoom = minzoom;
    layer.maxzoom = maxzoom;
}

// All layers, in their place.
fn each_within(tiles: Option<(u8, u8)>, layers: &mut [VectorLayer])
    ensures { layers.new ≡ layers_within tiles layers.old }
{
    for index in 0..layers.len() {
        layer_within(tiles, &mut layers[index]);
    }
}

// All layers.
fn layers_within(tiles: Option<(u8, u8)>, layers: LayerList) -> LayerList
    ensures { result ≡ layers_within tiles layers }
{
    let mut all = layers.into_vec();
    each_within(tiles, &mut all);
    LayerList::new(all)
}

// All layers, where there are any.
fn any_within(tiles: Option<(u8, u8)>, layers: Option<LayerList>) -> Option<LayerList>
    ensures { result ≡ option_map (layers_within tiles) layers }
{
    match layers {
        Some(layers) => Some(layers_within(tiles, layers)),
        None => None,
    }
}

/// A document with layers, and the zooms of both.
pub(crate) fn document_within(
    tiles: Option<(u8, u8)>,
    document: TileJson,
    layers: Option<LayerList>,
) -> TileJson
    ensures { result ≡ document_within tiles document layers }
{
    let mut document = document;
    let minzoom = minzoom_within(tiles, document.minzoom, document.maxzoom);
    let maxzoom = maxzoom_within(tiles, document.minzoom, document.maxzoom);
    document.minzoom = minzoom;
    document.maxzoom = maxzoom;
    document.vector_layers = any_within(tiles, layers);
    document
}
