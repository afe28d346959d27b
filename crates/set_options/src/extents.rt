// The bounds and the center that texts of metadata say.
ghost use Rattle.std.specs.Prelude.{◌≡◌, ◌∷◌, [], MatchOption};
ghost use Rattle.set_options.specs.Common.{parted};
ghost use Rattle.set_options.specs.Extents.{bounds_at, bounds_in, bounds_within, center_at, center_in, is_latitude, latitude_of, longitude_of, middle_of, trimmed, zoom_said};

use crate::degrees::degrees_of;
use line_words::{first_separator, parse_number};

/// Where the tiles of a set lie, in ten millionths of a degree.
#[derive(Clone, Copy, Debug, PartialEq, Eq)]
pub struct SetBounds {
    /// The western side.
    pub west: i32,
    /// The southern side.
    pub south: i32,
    /// The eastern side.
    pub east: i32,
    /// The northern side.
    pub north: i32,
}

impl SetBounds {
    /// The middle of these bounds as a place to begin with, at a zoom: half the sum of the longitudes and half that of
    /// the latitudes, towards 0.
    pub fn middle(self, zoom: u8) -> SetCenter
        ensures { result ≡ middle_of self zoom }
    {
        SetCenter {
            longitude: self.west.midpoint(self.east),
            latitude: self.south.midpoint(self.north),
            zoom: Some(zoom),
        }
    }
}

/// The place of a set to begin with, in ten millionths of a degree.
#[derive(Clone, Copy, Debug, PartialEq, Eq)]
pub struct SetCenter {
    /// Its longitude.
    pub longitude: i32,
    /// Its latitude.
    pub latitude: i32,
    /// Its zoom, 0 to 30, where one is said.
    pub zoom: Option<u8>,
}

// The part before the first comma, and what follows the comma, if there is one.
#[tactic(auto, using(line_words::proofs::PartingLemmas::first_words))]
fn first_part(text: &[u8]) -> (&[u8], Option<&[u8]>)
    ensures { MatchOption result.1 (parted 44 text.now ≡ result.0.now ∷ [])
        (λ rest. parted 44 text.now ≡ result.0.now ∷ parted 44 rest.now) }
{
    match first_separator(b',', text) {
        Some(place) => (&text[..place], Some(&text[place + 1..])),
        None => (text, None),
    }
}

// A word without blanks in front and behind.
fn trimmed(word: &[u8]) -> &[u8]
    ensures { result.now ≡ trimmed word.now }
{
    word.trim_ascii()
}

// The longitude of a part.
fn longitude_of(part: &[u8]) -> Option<i32>
    ensures { result ≡ longitude_of part.now }
{
    degrees_of(trimmed(part))
}

// Whether degrees are those of a latitude.
fn is_latitude(degrees: i32) -> bool
    ensures { result ≡ is_latitude degrees }
{
    !degrees.cmp(&900_000_000).is_gt() && !degrees.cmp(&-900_000_000).is_lt()
}

// The latitude of a part.
fn latitude_of(part: &[u8]) -> Option<i32>
    ensures { result ≡ latitude_of part.now }
{
    let degrees = longitude_of(part)?;
    if is_latitude(degrees) {
        Some(degrees)
    } else {
        None
    }
}

// The zoom of a part.
fn zoom_said(part: &[u8]) -> Option<u8>
    ensures { result ≡ zoom_said part.now }
{
    Some(parse_number(trimmed(part), 30)? as u8)
}

// Bounds whose south doesn't lie above their north.
fn bounds_within(west: i32, south: i32, east: i32, north: i32) -> Option<SetBounds>
    ensures { result ≡ bounds_within west south east north }
{
    if south.cmp(&north).is_gt() {
        return None;
    }
    Some(SetBounds {
        west,
        south,
        east,
        north,
    })
}

// The bounds of four parts.
fn bounds_at(west: &[u8], south: &[u8], east: &[u8], north: &[u8]) -> Option<SetBounds>
    ensures { result ≡ bounds_at west.now south.now east.now north.now }
{
    let west = longitude_of(west)?;
    let south = latitude_of(south)?;
    let east = longitude_of(east)?;
    bounds_within(west, south, east, latitude_of(north)?)
}

/// The bounds that a text says: west, south, east and north in degrees, parted by commas, blanks around them or none.
/// None for any other text, for latitudes past 90 degrees, and for a south above the north.
#[tactic(auto, using(crate::proofs::ExtentLemmas::too_many))]
pub(crate) fn bounds_in(text: &[u8]) -> Option<SetBounds>
    ensures { result ≡ bounds_in text.now }
{
    let (west, Some(rest)) = first_part(text) else {
        return None;
    };
    let (south, Some(rest)) = first_part(rest) else {
        return None;
    };
    let (east, Some(rest)) = first_part(rest) else {
        return None;
    };
    match first_part(rest) {
        (north, None) => bounds_at(west, south, east, north),
        (_, Some(_)) => None,
    }
}

// The center of two parts.
fn center_at(longitude: &[u8], latitude: &[u8], zoom: Option<u8>) -> Option<SetCenter>
    ensures { result ≡ center_at longitude.now latitude.now zoom }
{
    let longitude = longitude_of(longitude)?;
    let latitude = latitude_of(latitude)?;
    Some(SetCenter {
        longitude,
        latitude,
        zoom,
    })
}

/// The center that a text says: longitude and latitude in degrees, and a zoom or none, parted by commas, blanks
/// around them or none. A zoom that is no number from 0 to 30 says none. None for any other text, and for a
/// latitude past 90 degrees.
#[tactic(auto, using(crate::proofs::ExtentLemmas::too_many))]
pub(crate) fn center_in(text: &[u8]) -> Option<SetCenter>
    ensures { result ≡ center_in text.now }
{
    let (longitude, Some(rest)) = first_part(text) else {
        return None;
    };
    match first_part(rest) {
        (latitude, None) => center_at(longitude, latitude, None),
        (latitude, Some(rest)) => match first_part(rest) {
            (zoom, None) => center_at(longitude, latitude, zoom_said(zoom)),
            (_, Some(_)) => None,
        },
    }
}
