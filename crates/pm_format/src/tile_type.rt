// Types of tile.
ghost use Rattle.std.specs.Prelude.{◌≡◌};

use crate::PmtError;

/// What the tiles of an archive are (PMTiles specification version 3, tile type).
#[derive(Clone, Copy, Debug, PartialEq, Eq)]
pub enum TileType {
    /// Not known.
    Unknown,
    /// Mapbox vector tiles.
    Mvt,
    /// PNG pictures.
    Png,
    /// JPEG pictures.
    Jpeg,
    /// WebP pictures.
    Webp,
    /// AVIF pictures.
    Avif,
    /// MapLibre tiles.
    Mlt,
}

impl TileType {
    ghost use Rattle.std.specs.Prelude.{◌≡◌, slice_get};
    ghost use Rattle.pm_format.specs.Common.{ok_or};
    ghost use Rattle.pm_format.specs.Header.{tile_types, tile_type_byte};
    ghost use Rattle.pm_format.specs.TileType.{media_type_text};

    /// The type that a byte of a header stands for: 0 to 6 in the order of the variants.
    /// `InvalidTileType` for any other byte.
    pub fn from_byte(byte: u8) -> Result<TileType, PmtError>
        ensures { result ≡ ok_or (slice_get tile_types byte) PmtError.InvalidTileType }
    {
        match byte {
            0 => Ok(TileType::Unknown),
            1 => Ok(TileType::Mvt),
            2 => Ok(TileType::Png),
            3 => Ok(TileType::Jpeg),
            4 => Ok(TileType::Webp),
            5 => Ok(TileType::Avif),
            6 => Ok(TileType::Mlt),
            _ => Err(PmtError::InvalidTileType),
        }
    }

    /// The byte of a type in a header, 0 to 6.
    pub fn to_byte(self) -> u8
        ensures { result ≡ tile_type_byte self }
    {
        match self {
            TileType::Unknown => 0,
            TileType::Mvt => 1,
            TileType::Png => 2,
            TileType::Jpeg => 3,
            TileType::Webp => 4,
            TileType::Avif => 5,
            TileType::Mlt => 6,
        }
    }

    /// The media type of a tile, application/octet-stream where the type isn't known.
    pub fn content_type(self) -> &'static str
        ensures { result.now ≡ media_type_text self }
    {
        match self {
            TileType::Mvt => "application/vnd.mapbox-vector-tile",
            TileType::Png => "image/png",
            TileType::Jpeg => "image/jpeg",
            TileType::Webp => "image/webp",
            TileType::Avif => "image/avif",
            TileType::Mlt => "application/vnd.maplibre-vector-tile",
            TileType::Unknown => "application/octet-stream",
        }
    }
}
