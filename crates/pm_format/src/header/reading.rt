// The fields of a header, read at their places.
ghost use Rattle.std.specs.Prelude.{◌≡◌, ◌+◌, ◌≤◌, length, slice_get, OnOk, IfErr, Err};
ghost use Rattle.pm_format.specs.Common.{w64};
ghost use Rattle.pm_format.specs.Header.{word_at, degrees_at, byte_at, fields, labelled, head, compressions, tile_types};

use crate::{Compression, HEADER_SIZE, Header, PmtError, TileType};

// Eight bytes, the low one first.
fn read_word(bytes: &[u8], at: usize) -> u64
    requires { at + 8 ≤ length bytes.now }
    ensures { result ≡ word_at w64 at bytes.now }
{
    let mut word = [0; 8];
    word.copy_from_slice(&bytes[at..at + 8]);
    u64::from_le_bytes(word)
}

// Four bytes, the low one first.
fn read_degrees(bytes: &[u8], at: usize) -> i32
    requires { at + 4 ≤ length bytes.now }
    ensures { result ≡ degrees_at at bytes.now }
{
    let mut degrees = [0; 4];
    degrees.copy_from_slice(&bytes[at..at + 4]);
    i32::from_le_bytes(degrees)
}

// Tests the lengths and the first seven bytes. Where they pass, the labels and the type decide.
pub fn check_front(bytes: &[u8]) -> Result<(), PmtError>
    ensures long { OnOk result (HEADER_SIZE ≤ length bytes.now) }
    ensures ok { OnOk result (head bytes.now ≡ labelled bytes.now
        (slice_get compressions (byte_at 97 bytes.now))
        (slice_get compressions (byte_at 98 bytes.now))
        (slice_get tile_types (byte_at 99 bytes.now))) }
    ensures err { IfErr result (λ refusal. head bytes.now ≡ Err refusal) }
{
    if bytes.len() < 7 {
        return Err(PmtError::InvalidHeader);
    }
    if &bytes[..7] == b"PMTiles".as_slice() {
        if bytes.len() < HEADER_SIZE {
            return Err(PmtError::InvalidHeader);
        }
        return Ok(());
    }
    if &bytes[..2] == b"PM".as_slice() {
        return Err(PmtError::UnsupportedPmTilesVersion);
    }
    Err(PmtError::InvalidMagicNumber)
}

// The fields at their places, with the labels and the type that were found.
pub fn read_fields(
    bytes: &[u8],
    internal_compression: Compression,
    tile_compression: Compression,
    tile_type: TileType,
) -> Header
    requires { HEADER_SIZE ≤ length bytes.now }
    ensures { result ≡ fields bytes.now internal_compression tile_compression tile_type }
{
    Header {
        version: bytes[7],
        root_offset: read_word(bytes, 8),
        root_length: read_word(bytes, 16),
        metadata_offset: read_word(bytes, 24),
        metadata_length: read_word(bytes, 32),
        leaf_offset: read_word(bytes, 40),
        leaf_length: read_word(bytes, 48),
        data_offset: read_word(bytes, 56),
        data_length: read_word(bytes, 64),
        n_addressed_tiles: read_word(bytes, 72),
        n_tile_entries: read_word(bytes, 80),
        n_tile_contents: read_word(bytes, 88),
        clustered: bytes[96] == 1,
        internal_compression,
        tile_compression,
        tile_type,
        min_zoom: bytes[100],
        max_zoom: bytes[101],
        min_longitude: read_degrees(bytes, 102),
        min_latitude: read_degrees(bytes, 106),
        max_longitude: read_degrees(bytes, 110),
        max_latitude: read_degrees(bytes, 114),
        center_zoom: bytes[118],
        center_longitude: read_degrees(bytes, 119),
        center_latitude: read_degrees(bytes, 123),
    }
}
