// Labels of compression.
ghost use Rattle.std.specs.Prelude.{◌≡◌};

use crate::PmtError;

/// How bytes of an archive are compressed (PMTiles specification version 3, compression).
#[derive(Clone, Copy, Debug, PartialEq, Eq)]
pub enum Compression {
    /// Not known.
    Unknown,
    /// Not compressed.
    None,
    /// Gzip (RFC 1952).
    Gzip,
    /// Brotli (RFC 7932).
    Brotli,
    /// Zstandard (RFC 8878).
    Zstd,
}

impl Compression {
    ghost use Rattle.std.specs.Prelude.{◌≡◌, slice_get};
    ghost use Rattle.pm_format.specs.Common.{ok_or, option_copied};
    ghost use Rattle.pm_format.specs.Header.{compressions, compression_byte};
    ghost use Rattle.pm_format.specs.Compression.{encoding_text};

    /// The label that a byte of a header stands for: 0 to 4 in the order of the variants.
    /// `InvalidCompression` for any other byte.
    pub fn from_byte(byte: u8) -> Result<Compression, PmtError>
        ensures { result ≡ ok_or (slice_get compressions byte) PmtError.InvalidCompression }
    {
        match byte {
            0 => Ok(Compression::Unknown),
            1 => Ok(Compression::None),
            2 => Ok(Compression::Gzip),
            3 => Ok(Compression::Brotli),
            4 => Ok(Compression::Zstd),
            _ => Err(PmtError::InvalidCompression),
        }
    }

    /// The byte of a label in a header, 0 to 4.
    pub fn to_byte(self) -> u8
        ensures { result ≡ compression_byte self }
    {
        match self {
            Compression::Unknown => 0,
            Compression::None => 1,
            Compression::Gzip => 2,
            Compression::Brotli => 3,
            Compression::Zstd => 4,
        }
    }

    /// The name of a compression in HTTP (RFC 9110, content codings), none where the bytes are plain or their
    /// compression isn't known.
    pub fn content_encoding(self) -> Option<&'static str>
        ensures { option_copied result ≡ encoding_text self }
    {
        match self {
            Compression::Gzip => Some("gzip"),
            Compression::Brotli => Some("br"),
            Compression::Zstd => Some("zstd"),
            Compression::Unknown | Compression::None => None,
        }
    }
}
