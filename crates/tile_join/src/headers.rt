// What the joined archive says beside its tiles.
ghost use Rattle.std.specs.Prelude.{◌≡◌, All, IfOk, IfErr, IsTrue, ◌↔◌, ℕ, map};
ghost use Rattle.std.specs.Int.{int_max, int_min};
ghost use Rattle.tile_join.specs.Common.{header_of};
ghost use Rattle.tile_join.specs.Headers.{IsAlike, UnlikeAt, options_for, over_header, over_headers};

use crate::JoinError;
use base_values::TextVal;
use pm_format::Header;
use pm_reader::ReaderState;
use pm_writer::PmTilesWriter;
use tile_extract::{IdIntervals, TilePart, part_options};

// The lesser of two numbers of degrees.
fn least(one: i32, other: i32) -> i32
    ensures { result ≡ int_min one other }
{
    one.min(other)
}

// The greater one.
fn greatest(one: i32, other: i32) -> i32
    ensures { result ≡ int_max one other }
{
    one.max(other)
}

// A header with the zooms and the bounds of another one beside its own.
fn over_header(header: Header, other: &Header) -> Header
    ensures { result ≡ over_header header other.now }
{
    Header {
        min_zoom: header.min_zoom.min(other.min_zoom),
        max_zoom: header.max_zoom.max(other.max_zoom),
        min_longitude: least(header.min_longitude, other.min_longitude),
        min_latitude: least(header.min_latitude, other.min_latitude),
        max_longitude: greatest(header.max_longitude, other.max_longitude),
        max_latitude: greatest(header.max_latitude, other.max_latitude),
        ..header
    }
}

// With those of several others.
fn over_headers(header: Header, readers: &[ReaderState]) -> Header
    ensures { result ≡ over_headers header (map header_of readers.now) }
{
    let mut whole = header;
    let mut rest = readers;
    while let Some((reader, others)) = rest.split_first() {
        let next = over_header(whole, reader.get_header());
        whole = next;
        rest = others;
    }
    whole
}

/// Labels, type, centre and metadata of the last source; the least and the greatest zoom, and the box around the
/// bounds, of all.
pub(crate) fn options_for(
    last: &Header,
    readers: &[ReaderState],
    metadata: TextVal,
    ids: IdIntervals,
) -> PmTilesWriter
    ensures { result ≡ options_for last.now (map header_of readers.now) metadata }
{
    let header = over_headers(*last, readers);
    let part = TilePart {
        intervals: ids,
        min_zoom: header.min_zoom,
        max_zoom: header.max_zoom,
    };
    part_options(&header, metadata, &part)
}

// Whether a source labels its tiles as the last one does.
fn is_alike(last: &Header, header: &Header) -> bool
    ensures { IsTrue result ↔ IsAlike last.now header.now }
{
    header.tile_type == last.tile_type && header.tile_compression == last.tile_compression
}

/// Whether all sources do: else the first one that doesn't is named.
pub(crate) fn test_alike(last: &Header, readers: &[ReaderState]) -> Result<(), JoinError>
    ensures ok { IfOk result (λ _. All (IsAlike last.now) (map header_of readers.now)) }
    ensures err { IfErr result (λ e. (k : ℕ) × (e ≡ JoinError.Different k)
        × UnlikeAt last.now (map header_of readers.now) k) }
{
    let mut rest = readers;
    let mut number = 0;
    while let Some((reader, others)) = rest.split_first() {
        if !is_alike(last, reader.get_header()) {
            return Err(JoinError::Different { source: number });
        }
        number += 1;
        rest = others;
    }
    Ok(())
}
