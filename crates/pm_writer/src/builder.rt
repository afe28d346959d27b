// The options of an archive, before there is a medium.
ghost use Rattle.std.specs.Prelude.{◌≡◌, ◌≤◌, ◌<◌, ◌^◌, length, Some};
ghost use Rattle.pm_writer.specs.Common.{default_options};
ghost use Rattle.pm_writer.specs.Bounds.{OptionsFit};
ghost use Rattle.pm_writer.specs.Settings.{options_with};

use crate::settings::Settings;
use base_values::TextVal;
use pm_format::{Compression, TileType};
use std::marker::Model;

/// What is written beside the tiles: labels, type, zooms, degrees and metadata. Made by `new`, changed by the
/// setters, and used by `create`.
#[derive(Drop)]
pub struct PmTilesWriter {
    settings: Settings,
    metadata: Option<TextVal>,
}

impl Model for PmTilesWriter {
    ghost use Rattle.std.specs.Prelude.{◌≤◌};
    ghost use Rattle.pm_writer.specs.Common.{Options};
    ghost use Rattle.pm_writer.specs.Settings.{metadata_of, options_with};

    ghost Value = { Options };

    ghost view = { λ w. options_with w.settings (metadata_of w.metadata) };

    ghost invariant = { λ w. (16 ≤ w.settings.max_leaf_entries)
        × (w.settings.max_leaf_entries ≤ 65536) };
}

impl PmTilesWriter {
    /// A writer of tiles of this type. Directories are labelled `None`, and tiles `Gzip` for Mvt and else `None`. The
    /// zooms are 0 to 22, the bounds are the whole world of the Mercator projection, the center is at zoom 0 and
    /// degrees 0, the metadata is `{}`, and a leaf has at most 4,096 entries.
    pub fn new(tile_type: TileType) -> PmTilesWriter
        ensures { result ≡ default_options tile_type }
    {
        let tile_compression = match tile_type {
            TileType::Mvt => Compression::Gzip,
            _ => Compression::None,
        };
        PmTilesWriter {
            settings: Settings {
                internal_compression: Compression::None,
                tile_compression,
                tile_type,
                min_zoom: 0,
                max_zoom: 22,
                min_longitude: -1_800_000_000,
                min_latitude: -850_511_290,
                max_longitude: 1_800_000_000,
                max_latitude: 850_511_290,
                center_zoom: 0,
                center_longitude: 0,
                center_latitude: 0,
                max_leaf_entries: 4096,
            },
            metadata: None,
        }
    }

    /// With this least zoom, which is said and not tested.
    pub fn min_zoom(mut self, level: u8) -> Self
        ensures { result ≡ record self { min_zoom = level } }
    {
        self.settings.min_zoom = level;
        self
    }

    /// With this greatest zoom, which is said and not tested.
    pub fn max_zoom(mut self, level: u8) -> Self
        ensures { result ≡ record self { max_zoom = level } }
    {
        self.settings.max_zoom = level;
        self
    }

    /// With these bounds, in ten millionths of a degree.
    pub fn bounds(mut self, min_lon: i32, min_lat: i32, max_lon: i32, max_lat: i32) -> Self
        ensures { result ≡ record self {
          min_longitude = min_lon;
          min_latitude = min_lat;
          max_longitude = max_lon;
          max_latitude = max_lat;
        } }
    {
        self.settings.min_longitude = min_lon;
        self.settings.min_latitude = min_lat;
        self.settings.max_longitude = max_lon;
        self.settings.max_latitude = max_lat;
        self
    }

    /// With this zoom to begin with.
    pub fn center_zoom(mut self, level: u8) -> Self
        ensures { result ≡ record self { center_zoom = level } }
    {
        self.settings.center_zoom = level;
        self
    }

    /// With this place to begin with, in ten millionths of a degree.
    pub fn center(mut self, lon: i32, lat: i32) -> Self
        ensures { result ≡ record self { center_longitude = lon; center_latitude = lat } }
    {
        self.settings.center_longitude = lon;
        self.settings.center_latitude = lat;
        self
    }

    /// With this text as metadata, which isn't read.
    pub fn metadata(mut self, metadata: TextVal) -> Self
        ensures { result ≡ record self { metadata = metadata } }
    {
        self.metadata = Some(metadata);
        self
    }

    /// With this label of directories and metadata. Only `None` can be written.
    pub fn internal_compression(mut self, label: Compression) -> Self
        ensures { result ≡ record self { internal_compression = label } }
    {
        self.settings.internal_compression = label;
        self
    }

    /// With this label of tiles, whose bytes aren't changed by it.
    pub fn tile_compression(mut self, label: Compression) -> Self
        ensures { result ≡ record self { tile_compression = label } }
    {
        self.settings.tile_compression = label;
        self
    }

    /// With at most so many entries in a directory of tile entries below the root, from 16 to 65,536.
    pub fn max_leaf_entries(mut self, entries: u32) -> Self
        requires least { 16 ≤ entries }
        requires most { entries ≤ 65536 }
        ensures { result ≡ record self { max_leaf_entries = entries } }
    {
        self.settings.max_leaf_entries = entries;
        self
    }

    /// The label of directories and metadata.
    pub fn directory_label(&self) -> Compression
        ensures { result ≡ self.now.internal_compression }
    {
        self.settings.internal_compression
    }

    /// That zooms and degrees lie within their types, a leaf has from 16 to 65,536 entries at most and the metadata has
    /// fewer than 2^63 bytes, whatever the setters were given. It does nothing.
    pub fn fits(&self)
        ensures options { OptionsFit self.now }
        ensures metadata { length self.now.metadata < 2 ^ 63 }
    {
        let _settings = self.settings();
        let _metadata = self.metadata_bytes();
    }

    /// The metadata as bytes.
    pub(crate) fn metadata_bytes(&self) -> &[u8]
        ensures { result.now ≡ self.now.metadata }
    {
        match &self.metadata {
            Some(text) => text.as_str().as_bytes(),
            None => b"{}",
        }
    }

    /// The options but the metadata.
    pub(crate) fn settings(&self) -> Settings
        ensures is { self.now ≡ options_with result self.now.metadata }
        ensures fit { OptionsFit self.now }
    {
        self.settings.fit();
        self.settings
    }
}
