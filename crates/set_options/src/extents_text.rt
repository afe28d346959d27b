// The bounds and the center of a header, where a set has to say them.
ghost use Rattle.std.specs.Prelude.{◌≡◌, IfOk};
ghost use Rattle.set_options.specs.ExtentsText.{are_in_range, are_of_world, are_sayable, bounds_of, bounds_said, bounds_text, center_said, center_text, has_own_center, is_above, is_at, is_at_first_zoom, is_longitude, is_middle_of, is_said_latitude, same};

use crate::degrees_text::degrees_text;
use crate::{SetBounds, SetCenter};
use base_values::{OutOfMemory, TextVal};
use pm_format::Header;
use std::alloc::Global;
use tile_json::{TileBounds, TileCenter};

// The bounds of a header in degrees.
fn bounds_text(alloc: Global, header: &Header) -> Result<TextVal, OutOfMemory>
    ensures { IfOk result (λ text. text ≡ bounds_text header.now) }
{
    let west = degrees_text(alloc, header.min_longitude)?;
    let south = degrees_text(alloc, header.min_latitude)?;
    let east = degrees_text(alloc, header.max_longitude)?;
    let north = degrees_text(alloc, header.max_latitude)?;
    Ok(TextVal::new(format!(in alloc; "{west},{south},{east},{north}")?))
}

// The center of a header in degrees, with its zoom.
fn center_text(alloc: Global, header: &Header) -> Result<TextVal, OutOfMemory>
    ensures { IfOk result (λ text. text ≡ center_text header.now) }
{
    let longitude = degrees_text(alloc, header.center_longitude)?;
    let latitude = degrees_text(alloc, header.center_latitude)?;
    let zoom = header.center_zoom;
    Ok(TextVal::new(format!(in alloc; "{longitude},{latitude},{zoom}")?))
}

fn bounds_of(header: &Header) -> SetBounds
    ensures { result ≡ bounds_of header.now }
{
    SetBounds {
        west: header.min_longitude,
        south: header.min_latitude,
        east: header.max_longitude,
        north: header.max_latitude,
    }
}

#[tactic(auto, unfolding(crate::specs::ExtentsText::same))]
fn same(one: i32, other: i32) -> bool
    ensures { result ≡ same one other }
{
    one.cmp(&other).is_eq()
}

// Whether bounds are those of the world, with which a header begins.
#[tactic(auto, unfolding(crate::specs::ExtentsText::are_of_world))]
fn are_of_world(bounds: SetBounds) -> bool
    ensures { result ≡ are_of_world bounds }
{
    same(bounds.west, -1_800_000_000)
        && same(bounds.south, -850_511_290)
        && same(bounds.east, 1_800_000_000)
        && same(bounds.north, 850_511_290)
}

#[tactic(auto, unfolding(crate::specs::ExtentsText::is_longitude))]
fn is_longitude(degrees: i32) -> bool
    ensures { result ≡ is_longitude degrees }
{
    !degrees.cmp(&1_800_000_000).is_gt() && !degrees.cmp(&-1_800_000_000).is_lt()
}

#[tactic(auto, unfolding(crate::specs::ExtentsText::is_said_latitude))]
fn is_latitude(degrees: i32) -> bool
    ensures { result ≡ is_said_latitude degrees }
{
    !degrees.cmp(&900_000_000).is_gt() && !degrees.cmp(&-900_000_000).is_lt()
}

#[tactic(auto, unfolding(crate::specs::ExtentsText::is_above))]
fn is_above(one: i32, other: i32) -> bool
    ensures { result ≡ is_above one other }
{
    one.cmp(&other).is_gt()
}

#[tactic(auto, unfolding(crate::specs::ExtentsText::are_in_range))]
fn are_in_range(bounds: SetBounds) -> bool
    ensures { result ≡ are_in_range bounds }
{
    is_longitude(bounds.west)
        && is_latitude(bounds.south)
        && is_longitude(bounds.east)
        && is_latitude(bounds.north)
}

// Whether bounds are read back from what a set says.
#[tactic(auto, unfolding(crate::specs::ExtentsText::are_sayable))]
fn are_sayable(bounds: SetBounds) -> bool
    ensures { result ≡ are_sayable bounds }
{
    are_in_range(bounds) && !is_above(bounds.south, bounds.north)
}

// Whether the center is at the place of another.
#[tactic(auto, unfolding(crate::specs::ExtentsText::is_at))]
fn is_at(header: &Header, center: SetCenter) -> bool
    ensures { result ≡ is_at header.now center }
{
    same(header.center_longitude, center.longitude) && same(header.center_latitude, center.latitude)
}

// Whether the center is at the least zoom, or at zoom 0 in the bounds of the world.
#[tactic(auto, unfolding(crate::specs::ExtentsText::is_at_first_zoom))]
fn is_at_first_zoom(header: &Header, bounds: SetBounds) -> bool
    ensures { result ≡ is_at_first_zoom header.now bounds }
{
    let zoom = header.center_zoom;
    zoom == header.min_zoom || zoom == 0 && are_of_world(bounds)
}

// Whether the center is the one that a set of these bounds has without a word.
#[tactic(auto, unfolding(crate::specs::ExtentsText::is_middle_of))]
fn is_middle_of(header: &Header, bounds: SetBounds) -> bool
    ensures { result ≡ is_middle_of header.now bounds }
{
    is_at(header, bounds.middle(header.min_zoom)) && is_at_first_zoom(header, bounds)
}

// Whether a set without a center has another one than the header.
#[tactic(auto, unfolding(crate::specs::ExtentsText::has_own_center))]
fn has_own_center(header: &Header) -> bool
    ensures { result ≡ has_own_center header.now }
{
    let bounds = bounds_of(header);
    !(are_sayable(bounds) && is_middle_of(header, bounds))
}

/// The bounds that a set has to say.
pub(crate) fn bounds_said(alloc: Global, header: &Header) -> Result<Option<TileBounds>, OutOfMemory>
    ensures { IfOk result (λ b. b ≡ bounds_said header.now) }
{
    if are_of_world(bounds_of(header)) {
        return Ok(None);
    }
    Ok(Some(TileBounds::Text(bounds_text(alloc, header)?)))
}

/// The center that a set has to say.
pub(crate) fn center_said(alloc: Global, header: &Header) -> Result<Option<TileCenter>, OutOfMemory>
    ensures { IfOk result (λ c. c ≡ center_said header.now) }
{
    if has_own_center(header) {
        return Ok(Some(TileCenter::Text(center_text(alloc, header)?)));
    }
    Ok(None)
}
