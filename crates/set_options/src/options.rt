// The options of an archive that a set gives.
ghost use Rattle.std.specs.Prelude.{◌≡◌, codes, IfOk};
ghost use Rattle.set_options.specs.Common.{option_and_then, text_at};
ghost use Rattle.set_options.specs.Extents.{bounds_in, center_in};
ghost use Rattle.set_options.specs.Format.{type_of};
ghost use Rattle.set_options.specs.OptionsOfSet.{AreOptionsOfSet, AreSaidOf, IsSaidBy, unsaid_center, with_bounds, with_center, with_center_zoom, writer_of};

use crate::archive_json::archive_text;
use crate::extents::{bounds_in, center_in};
use crate::facts::{facts_of, label_of};
use crate::format::type_of;
use crate::set_names::HasNames;
use crate::{SetBounds, SetCenter, SetNames, TileFacts};
use base_values::{OutOfMemory, TextVal};
use mb_loaded::Loaded;
use pm_format::{Compression, TileType};
use pm_writer::PmTilesWriter;
use std::alloc::Global;

/// What a set says of its archive.
#[derive(Debug, Drop)]
pub struct SetOptions {
    /// The type of the tiles, by the text under `format`.
    pub tile_type: TileType,
    /// The label of the tiles, by their first bytes.
    pub tile_compression: Compression,
    /// The least and the greatest zoom of the tiles of at least one byte, 0 and 0 where there is none.
    pub zooms: (u8, u8),
    /// The bounds, where the text under `bounds` says any.
    pub bounds: Option<SetBounds>,
    /// The center, where the text under `center` says one.
    pub center: Option<SetCenter>,
    /// The text of the archive's metadata, an object of JSON.
    pub metadata: TextVal,
}

// The type that the text under `format` says.
fn type_said<N: HasNames>(names: &N) -> TileType
    ensures { result ≡ type_of (text_at (N.names names.now) (codes "format")) }
{
    type_of(names.said("format"))
}

// The bounds that the text under `bounds` says.
fn bounds_said<N: HasNames>(names: &N) -> Option<SetBounds>
    ensures { result ≡ option_and_then bounds_in (text_at (N.names names.now) (codes "bounds")) }
{
    bounds_in(names.said("bounds")?.as_str().as_bytes())
}

// The center that the text under `center` says.
fn center_said<N: HasNames>(names: &N) -> Option<SetCenter>
    ensures { result ≡ option_and_then center_in (text_at (N.names names.now) (codes "center")) }
{
    center_in(names.said("center")?.as_str().as_bytes())
}

// What names and tiles say.
fn said_of<N: HasNames>(
    alloc: Global,
    names: &N,
    facts: TileFacts,
) -> Result<SetOptions, OutOfMemory>
    ensures { IfOk result (AreSaidOf (N.names names.now) facts) }
{
    let tile_type = type_said(names);
    let metadata = archive_text(alloc, names)?;
    Ok(SetOptions {
        tile_type,
        tile_compression: label_of(tile_type, facts),
        zooms: facts.zooms.unwrap_or((0, 0)),
        bounds: bounds_said(names),
        center: center_said(names),
        metadata,
    })
}

impl SetOptions {
    /// What a loaded set says of its archive:
    ///
    /// - the type of tiles by the text under `format`, a word or a media type, ASCII case and blanks around it aside;
    /// - the label of vector tiles by their first two bytes: `Gzip` where all of them begin as gzip begins, `None`
    ///   where none does, `Unknown` where some do; that of others `None`;
    /// - the zooms of the tiles of at least one byte;
    /// - bounds and center by the texts under these names, to the nearest ten millionth of a degree;
    /// - as metadata the members of the object of JSON under `json`, and over them the texts of all names but those
    ///   that are said otherwise.
    pub fn of_set(alloc: Global, set: &Loaded) -> Result<SetOptions, OutOfMemory>
        ensures { IfOk result (IsSaidBy set.now.state) }
    {
        said_of(alloc, set, facts_of(set))
    }

    /// What the names of a set and its tiles say of its archive, as `of_set` has it of a loaded set.
    pub fn of_parts(
        alloc: Global,
        names: &SetNames,
        facts: TileFacts,
    ) -> Result<SetOptions, OutOfMemory>
        ensures { IfOk result (AreSaidOf names.now facts) }
    {
        said_of(alloc, names, facts)
    }

    /// The writer of the archive that these options are of. Where they say no bounds, it has those of the world; where
    /// they say no center, the middle of the bounds at the least zoom.
    pub fn into_writer(self) -> PmTilesWriter
        ensures { result ≡ writer_of self }
    {
        let (min_zoom, max_zoom) = self.zooms;
        let writer = PmTilesWriter::new(self.tile_type)
            .tile_compression(self.tile_compression)
            .min_zoom(min_zoom)
            .max_zoom(max_zoom)
            .metadata(self.metadata);
        let center = self.center.unwrap_or(unsaid_center(self.bounds, min_zoom));
        with_center(with_bounds(writer, self.bounds), center)
    }
}

// With bounds, if there are any.
fn with_bounds(writer: PmTilesWriter, bounds: Option<SetBounds>) -> PmTilesWriter
    ensures { result ≡ with_bounds bounds writer }
{
    match bounds {
        Some(b) => writer.bounds(b.west, b.south, b.east, b.north),
        None => writer,
    }
}

// With a zoom to begin with, if there is one.
fn with_center_zoom(writer: PmTilesWriter, zoom: Option<u8>) -> PmTilesWriter
    ensures { result ≡ with_center_zoom zoom writer }
{
    match zoom {
        Some(zoom) => writer.center_zoom(zoom),
        None => writer,
    }
}

// The center of a set that says none.
fn unsaid_center(bounds: Option<SetBounds>, zoom: u8) -> SetCenter
    ensures { result ≡ unsaid_center bounds zoom }
{
    match bounds {
        Some(b) => b.middle(zoom),
        None => SetCenter {
            longitude: 0,
            latitude: 0,
            zoom: Some(zoom),
        },
    }
}

// With a center.
fn with_center(writer: PmTilesWriter, center: SetCenter) -> PmTilesWriter
    ensures { result ≡ with_center center writer }
{
    with_center_zoom(
        writer.center(center.longitude, center.latitude),
        center.zoom,
    )
}

/// The options that a loaded set gives its archive, those of `SetOptions::of_set`.
pub fn options_of_set(alloc: Global, set: &Loaded) -> Result<PmTilesWriter, OutOfMemory>
    ensures { IfOk result (AreOptionsOfSet set.now.state) }
{
    Ok(SetOptions::of_set(alloc, set)?.into_writer())
}
