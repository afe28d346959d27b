// MD5 as text, and bytes as upper-case hexadecimal digits.
ghost use Rattle.std.specs.Prelude.{◌≡◌, ◌*◌, length};
ghost use Rattle.tile_hash.specs.Common.{encode_upper, md5};

use md5::{Digest, Md5};

/// Writes each byte as two upper-case digits, the high four bits first.
#[tactic(auto, using(crate::proofs::UpperCaseLemmas::encode_raised))]
pub(crate) fn write_upper_hex(bytes: &[u8], out: &mut [u8])
    requires { length out.old ≡ 2 * length bytes.now }
    ensures { out.new ≡ encode_upper bytes.now }
{
    let written = hex::encode_to_slice(bytes, &mut *out);
    prove!(written.is_ok());
    out.make_ascii_uppercase();
}

/// The 16 bytes of the MD5 digest of these bytes (RFC 1321).
pub(crate) fn md5_bytes(bytes: &[u8]) -> [u8; 16]
    ensures { result ≡ md5 bytes.now }
{
    let mut hasher = Md5::new();
    hasher.update(bytes);
    hasher.finalize()
}

/// The MD5 digest of these bytes in upper-case hexadecimal (RFC 1321).
pub fn md5_text(bytes: &[u8]) -> [u8; 32]
    ensures { result ≡ encode_upper (md5 bytes.now) }
{
    let digest = md5_bytes(bytes);
    let mut text = [0; 32];
    write_upper_hex(&digest, &mut text);
    text
}
