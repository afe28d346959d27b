// What a header says of the tiles, as a document has it.
ghost use Rattle.std.specs.Prelude.{◌≡◌};
ghost use Rattle.pm_format.specs.TileJson.{bounds_of, center_of, tilejson_of};

use crate::Header;
use base_values::{TextList, TextVal};
use std::alloc::Global;
use tile_json::{JsonFields, TileBounds, TileCenter, TileJson};

impl Header {
    /// The bounds of the tiles, in ten millionths of a degree.
    pub fn get_bounds(&self) -> TileBounds
        ensures { result ≡ bounds_of self.now }
    {
        TileBounds::Whole {
            min_lon: self.min_longitude,
            min_lat: self.min_latitude,
            max_lon: self.max_longitude,
            max_lat: self.max_latitude,
        }
    }

    /// The place to begin with, in ten millionths of a degree, with its zoom.
    pub fn get_center(&self) -> TileCenter
        ensures { result ≡ center_of self.now }
    {
        TileCenter::Whole {
            lon: self.center_longitude,
            lat: self.center_latitude,
            zoom: self.center_zoom,
        }
    }

    /// The document of these sources, with the zooms, the bounds and the center of the header. It says nothing else.
    /// It takes no memory; the allocator is that by which its `other` grows later.
    pub fn get_tilejson(&self, alloc: Global, sources: Vec<TextVal>) -> TileJson
        ensures { result ≡ tilejson_of self.now sources.items }
    {
        TileJson {
            tiles: TextList::new(sources),
            name: None,
            version: None,
            description: None,
            attribution: None,
            legend: None,
            template: None,
            minzoom: Some(self.min_zoom),
            maxzoom: Some(self.max_zoom),
            bounds: Some(self.get_bounds()),
            center: Some(self.get_center()),
            vector_layers: None,
            other: JsonFields::new(alloc),
        }
    }
}
