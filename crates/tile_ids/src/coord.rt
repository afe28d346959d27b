// A tile's place in the pyramid of zooms.
ghost use Rattle.std.specs.Prelude.{◌≡◌, ◌≤◌, ◌<◌, ◌^◌, ◌↔◌, IsOk, IfOk, IfErr, IfSome};
ghost use Rattle.tile_ids.specs.Coord.{Coord, IsCoord, inverted_y, natural, tile_index};

use crate::hilbert::{hilbert_place, pyramid_size, zoom_of};
use crate::{TileError, TileId};
use std::marker::Model;

/// The greatest zoom of a tile coordinate.
pub const MAX_ZOOM: u8 = 31;

/// A tile coordinate: a zoom of 0 to 31, a column from the left and a row from the top, both below two to the zoom.
#[derive(Clone, Copy, Debug, PartialEq, Eq, Hash)]
pub struct TileCoord {
    z: u8,
    x: u32,
    y: u32,
}

impl Model for TileCoord {
    ghost use Rattle.tile_ids.specs.Coord.{Coord, IsCoord};

    ghost Value = { Coord };

    ghost view = { λ c. record { z = c.z; x = c.x; y = c.y } };

    ghost invariant = { λ c. IsCoord (record { z = c.z; x = c.x; y = c.y }) };

    ghost inverse = { λ c. record { z = c.z; x = c.x; y = c.y } };
}

impl TileCoord {
    /// The coordinate, or `InvalidCoordinate` where the zoom is above 31 or the column or row
    /// isn't below two to the zoom.
    pub fn new(z: u8, x: u32, y: u32) -> Result<TileCoord, TileError>
        ensures valid { IsOk result ↔ IsCoord (record { z = z; x = x; y = y }) }
        ensures value { IfOk result (λ c. c ≡ record { z = z; x = x; y = y }) }
        ensures error { IfErr result (λ e. e ≡ TileError.InvalidCoordinate z x y) }
    {
        if z > MAX_ZOOM {
            return Err(TileError::InvalidCoordinate(z, x, y));
        }
        let side = 1u64 << z;
        if u64::from(x) >= side || u64::from(y) >= side {
            return Err(TileError::InvalidCoordinate(z, x, y));
        }
        Ok(TileCoord { z, x, y })
    }

    /// The zoom, 0 to 31.
    pub fn z(&self) -> u8
        ensures value { result ≡ self.now.z }
        ensures within { IsCoord self.now }
    {
        self.z
    }

    /// The column, counted from the left.
    pub fn x(&self) -> u32
        ensures { result ≡ self.now.x }
    {
        self.x
    }

    /// The row, counted from the top.
    pub fn y(&self) -> u32
        ensures { result ≡ self.now.y }
    {
        self.y
    }
}

impl From<TileId> for TileCoord {
    ghost use Rattle.tile_ids.specs.Coord.{IsCoord};
    ghost use Rattle.tile_ids.specs.Hilbert.{id_of};

    // No two coordinates have one id, so this is the only one.
    ghost from_gives = { λ i c. IsCoord c × (id_of c ≡ i) };

    fn from(id: TileId) -> TileCoord {
        let zoom = zoom_of(id.value());
        let (x, y) = hilbert_place(zoom, id.value() - pyramid_size(zoom));
        TileCoord { z: zoom, x, y }
    }
}

/// The row of a zoom of 0 to 31 that is counted from the top where `y` is counted from the bottom,
/// and the other way round.
pub fn invert_y_value(zoom: u8, y: u32) -> u32
    requires zoom { zoom ≤ 31 }
    requires row { y < 2 ^ zoom }
    ensures value { result ≡ inverted_y zoom y }
    ensures within { result < 2 ^ zoom }
    ensures back { inverted_y zoom result ≡ y }
{
    (1u32 << zoom) - 1 - y
}

// The number, if it is there and not negative.
fn natural_value(number: Option<i64>) -> Option<u64>
    ensures { result ≡ natural number }
{
    match number {
        Some(n) => u64::try_from(n).ok(),
        None => None,
    }
}

/// The coordinate of a stored zoom, column and row, the row counted from the bottom.
///
/// Some exactly where all three are there, the zoom is 0 to 30, and the column and row are 0 to
/// two to the zoom less one.
pub fn parse_tile_index(z: Option<i64>, x: Option<i64>, y: Option<i64>) -> Option<TileCoord>
    ensures value { result ≡ tile_index z x y }
    ensures within { IfSome result (λ c. c.z ≤ 30) }
{
    let zoom = natural_value(z)?;
    let column = natural_value(x)?;
    let row = natural_value(y)?;
    if zoom > 30 {
        return None;
    }
    let side = 1u64 << zoom;
    if column >= side || row >= side {
        return None;
    }
    let zoom = zoom as u8;
    Some(TileCoord {
        z: zoom,
        x: column as u32,
        y: invert_y_value(zoom, row as u32),
    })
}
