// The texts that stand in metadata for parts of a document.
ghost use Rattle.std.specs.Prelude.{◌≡◌, false, IfOk, IfSome, option_copied, option_map};
ghost use Rattle.mb_metadata.specs.Common.{decimal, has_float};
ghost use Rattle.mb_metadata.specs.Inserting.{LayersHaveNoFloat, bounds_text, center_text, data_text, layers_text};

use crate::layer_json::layers_value;
use base_values::{OutOfMemory, TextVal};
use std::alloc::Global;
use tile_json::{JsonVal, LayerList, TileBounds, TileCenter};

/// A text as it is, another value as its compact JSON.
pub(crate) fn data_text(alloc: Global, value: &JsonVal) -> Result<TextVal, OutOfMemory>
    requires { has_float value.now ≡ false }
    ensures { IfOk result (λ text. text ≡ data_text value.now) }
{
    let value = value.as_value();
    match value.as_str() {
        Some(text) => Ok(TextVal::new(String::from_str(alloc, text)?)),
        None => Ok(TextVal::new(value.to_string(alloc)?)),
    }
}

// The numbers of bounds parted by commas, or the text that stands for them.
fn bounds_text(alloc: Global, bounds: &TileBounds) -> Result<TextVal, OutOfMemory>
    ensures { IfOk result (λ text. text ≡ bounds_text bounds.now) }
{
    match bounds {
        TileBounds::Text(text) => text.try_clone(alloc),
        TileBounds::Whole {
            min_lon,
            min_lat,
            max_lon,
            max_lat,
        } => {
            let text = format!(in alloc; "{min_lon},{min_lat},{max_lon},{max_lat}")?;
            Ok(TextVal::new(text))
        }
    }
}

// The numbers of a center parted by commas, or the text that stands for them.
fn center_text(alloc: Global, center: &TileCenter) -> Result<TextVal, OutOfMemory>
    ensures { IfOk result (λ text. text ≡ center_text center.now) }
{
    match center {
        TileCenter::Text(text) => text.try_clone(alloc),
        TileCenter::Whole { lon, lat, zoom } => {
            let text = format!(in alloc; "{lon},{lat},{zoom}")?;
            Ok(TextVal::new(text))
        }
    }
}

/// The text of bounds, if there are any.
pub(crate) fn any_bounds(
    alloc: Global,
    bounds: Option<&TileBounds>,
) -> Result<Option<TextVal>, OutOfMemory>
    ensures { IfOk result (λ text. text ≡ option_map bounds_text (option_copied bounds.entry)) }
{
    match bounds {
        Some(bounds) => Ok(Some(bounds_text(alloc, bounds)?)),
        None => Ok(None),
    }
}

/// The text of a center, if there is one.
pub(crate) fn any_center(
    alloc: Global,
    center: Option<&TileCenter>,
) -> Result<Option<TextVal>, OutOfMemory>
    ensures { IfOk result (λ text. text ≡ option_map center_text (option_copied center.entry)) }
{
    match center {
        Some(center) => Ok(Some(center_text(alloc, center)?)),
        None => Ok(None),
    }
}

/// The text of a zoom, if there is one.
pub(crate) fn any_zoom(alloc: Global, zoom: Option<u8>) -> Result<Option<TextVal>, OutOfMemory>
    ensures { IfOk result (λ text. text ≡ option_map decimal zoom) }
{
    match zoom {
        Some(zoom) => Ok(Some(TextVal::new(format!(in alloc; "{zoom}")?))),
        None => Ok(None),
    }
}

// The compact JSON of layers.
fn layers_text(alloc: Global, layers: &LayerList) -> Result<TextVal, OutOfMemory>
    requires { LayersHaveNoFloat layers.now }
    ensures { IfOk result (λ text. text ≡ layers_text layers.now) }
{
    let value = layers_value(alloc, layers)?;
    Ok(TextVal::new(value.to_string(alloc)?))
}

/// The compact JSON of layers, if there are any.
pub(crate) fn any_layers(
    alloc: Global,
    layers: Option<&LayerList>,
) -> Result<Option<TextVal>, OutOfMemory>
    requires { IfSome (option_copied layers) LayersHaveNoFloat }
    ensures { IfOk result (λ text. text ≡ option_map layers_text (option_copied layers.entry)) }
{
    match layers {
        Some(layers) => Ok(Some(layers_text(alloc, layers)?)),
        None => Ok(None),
    }
}
