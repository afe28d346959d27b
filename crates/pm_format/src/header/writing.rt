// The bytes of a header, written from front to back.
ghost use Rattle.std.specs.Prelude.{◌≡◌, ◌++◌, ◌+◌, ◌≤◌, length, take};
ghost use Rattle.pm_format.specs.Header.{word_bytes, degree_bytes, header_bytes, HeaderFits};
ghost use Rattle.pm_format.specs.HeaderParts.{place_bytes, count_bytes, label_bytes, bound_bytes, center_bytes};

use crate::{HEADER_SIZE, Header};

// Writes a piece over the bytes from a place.
fn put(bytes: &mut [u8], at: usize, piece: &[u8])
    requires { at + length piece.now ≤ length bytes.old }
    ensures { take (at + length piece.now) bytes.new ≡ take at bytes.old ++ piece.now }
{
    bytes[at..at + piece.len()].copy_from_slice(piece);
}

// Eight bytes, the low one first.
fn put_word(bytes: &mut [u8], at: usize, word: u64)
    requires { at + 8 ≤ length bytes.old }
    ensures { take (at + 8) bytes.new ≡ take at bytes.old ++ word_bytes word }
{
    put(bytes, at, &word.to_le_bytes());
}

// Four bytes, the low one first.
fn put_degrees(bytes: &mut [u8], at: usize, degrees: i32)
    requires { at + 4 ≤ length bytes.old }
    ensures { take (at + 4) bytes.new ≡ take at bytes.old ++ degree_bytes degrees }
{
    put(bytes, at, &degrees.to_le_bytes());
}

fn put_places(bytes: &mut [u8], header: &Header)
    requires { length bytes.old ≡ HEADER_SIZE }
    ensures { take 72 bytes.new ≡ take 8 bytes.old ++ place_bytes header.now }
{
    put_word(bytes, 8, header.root_offset);
    put_word(bytes, 16, header.root_length);
    put_word(bytes, 24, header.metadata_offset);
    put_word(bytes, 32, header.metadata_length);
    put_word(bytes, 40, header.leaf_offset);
    put_word(bytes, 48, header.leaf_length);
    put_word(bytes, 56, header.data_offset);
    put_word(bytes, 64, header.data_length);
}

fn put_counts(bytes: &mut [u8], header: &Header)
    requires { length bytes.old ≡ HEADER_SIZE }
    ensures { take 96 bytes.new ≡ take 72 bytes.old ++ count_bytes header.now }
{
    put_word(bytes, 72, header.n_addressed_tiles);
    put_word(bytes, 80, header.n_tile_entries);
    put_word(bytes, 88, header.n_tile_contents);
}

fn put_labels(bytes: &mut [u8], header: &Header)
    requires { length bytes.old ≡ HEADER_SIZE }
    ensures { take 102 bytes.new ≡ take 96 bytes.old ++ label_bytes header.now }
{
    let labels = [
        u8::from(header.clustered),
        header.internal_compression.to_byte(),
        header.tile_compression.to_byte(),
        header.tile_type.to_byte(),
        header.min_zoom,
        header.max_zoom,
    ];
    put(bytes, 96, &labels);
}

fn put_bounds(bytes: &mut [u8], header: &Header)
    requires { length bytes.old ≡ HEADER_SIZE }
    ensures { take 118 bytes.new ≡ take 102 bytes.old ++ bound_bytes header.now }
{
    put_degrees(bytes, 102, header.min_longitude);
    put_degrees(bytes, 106, header.min_latitude);
    put_degrees(bytes, 110, header.max_longitude);
    put_degrees(bytes, 114, header.max_latitude);
}

fn put_center(bytes: &mut [u8], header: &Header)
    requires { length bytes.old ≡ HEADER_SIZE }
    ensures { take HEADER_SIZE bytes.new ≡ take 118 bytes.old ++ center_bytes header.now }
{
    put(bytes, 118, &[header.center_zoom]);
    put_degrees(bytes, 119, header.center_longitude);
    put_degrees(bytes, 123, header.center_latitude);
}

// All of them, over bytes of the right number.
pub fn put_header(bytes: &mut [u8], header: Header)
    requires { length bytes.old ≡ HEADER_SIZE }
    ensures bytes { bytes.new ≡ header_bytes header }
    ensures fits { HeaderFits header }
{
    put(bytes, 0, b"PMTiles");
    put(bytes, 7, &[header.version]);
    put_places(bytes, &header);
    put_counts(bytes, &header);
    put_labels(bytes, &header);
    put_bounds(bytes, &header);
    put_center(bytes, &header);
}
