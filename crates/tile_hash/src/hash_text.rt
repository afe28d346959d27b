// A digest's text of up to 32 bytes, in place.
ghost use Rattle.std.specs.Prelude.{◌≡◌, ◌≤◌, length};
ghost use Rattle.tile_hash.specs.Common.{decimal, encode_upper, md5};
ghost use Rattle.tile_hash.specs.Digest.{word_text};

use crate::md5_hex::write_upper_hex;
use crate::md5_text;
use itoa::Buffer;
use std::marker::Model;

/// The text of a digest, up to 32 bytes in place.
#[derive(Debug, Drop)]
pub struct HashText {
    room: [u8; 32],
    used: usize,
}

impl Model for HashText {
    ghost use Rattle.std.specs.Prelude.{ℕ, List, take, ◌≤◌};

    ghost Value = { List ℕ };

    ghost view = { λ t. take t.used t.room };

    ghost invariant = { λ t. t.used ≤ 32 };
}

impl HashText {
    /// The text itself, at most 32 bytes.
    pub fn as_bytes(&self) -> &[u8]
        ensures value { result.now ≡ self.now }
        ensures short { length result.now ≤ 32 }
    {
        &self.room[..self.used]
    }

    // The MD5 digest of these bytes.
    pub(crate) fn of_md5(bytes: &[u8]) -> HashText
        ensures { result ≡ encode_upper (md5 bytes.now) }
    {
        HashText {
            room: md5_text(bytes),
            used: 32,
        }
    }

    // 16 hexadecimal digits.
    pub(crate) fn of_word(word: u64) -> HashText
        ensures { result ≡ word_text word }
    {
        let mut room = [0; 32];
        write_upper_hex(&word.to_be_bytes(), &mut room[..16]);
        HashText { room, used: 16 }
    }

    // Decimal digits.
    pub(crate) fn of_number(number: u64) -> HashText
        ensures { result ≡ decimal number }
    {
        let mut buffer = Buffer::new();
        let digits = buffer.format(number).as_bytes();
        let mut room = [0; 32];
        room[..digits.len()].copy_from_slice(digits);
        HashText {
            room,
            used: digits.len(),
        }
    }
}
