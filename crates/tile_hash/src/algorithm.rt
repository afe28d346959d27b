// The digests by their names.
ghost use Rattle.std.specs.Prelude.{◌≡◌, map, IfOk, IfSome};
ghost use Rattle.tile_hash.specs.Common.{to_ascii_lowercase};
ghost use Rattle.tile_hash.specs.Digest.{name_of, digest};
ghost use Rattle.tile_hash.specs.declared.algorithm.HashAlgorithm.{HashAlgorithm};

use crate::md5_hex::{md5_bytes, write_upper_hex};
use crate::{HashText, fnv1a, xxh3_64, xxh64};
use base_values::{OutOfMemory, TextVal};
use std::alloc::Global;
use std::fmt;

/// How tile contents are hashed.
#[derive(Clone, Copy, Debug, PartialEq, Eq)]
pub enum HashAlgorithm {
    /// MD5 in 32 hexadecimal digits (RFC 1321).
    Md5,
    /// FNV-1a with 64 bits in 16 hexadecimal digits.
    Fnv1a,
    /// FNV-1a with 64 bits in decimal.
    Fnv1aDecimal,
    /// XXH64 with seed 0 in 16 hexadecimal digits.
    Xxh64,
    /// XXH3 with 64 bits and seed 0 in 16 hexadecimal digits.
    Xxh3,
}

impl Default for HashAlgorithm {
    ghost use Rattle.tile_hash.specs.declared.algorithm.HashAlgorithm.TheVariants.{Md5};

    ghost is_default = { λ a. a ≡ Md5 };

    fn default() -> HashAlgorithm {
        HashAlgorithm::Md5
    }
}

impl fmt::Display for HashAlgorithm {
    ghost use Rattle.std.specs.Prelude.{Some};

    ghost output = { λ a. Some (name_of a) };

    fn fmt<W: fmt::Write>(&self, f: &mut fmt::Formatter<W>) -> fmt::Result {
        f.write_str(self.as_str())
    }
}

impl HashAlgorithm {
    /// The algorithm of this name, ASCII case aside: `md5`, `fnv1a`, `fnv1a-decimal`, `xxh64` or `xxh3`.
    pub fn parse(value: &str) -> Option<HashAlgorithm>
        ensures named { IfSome result (λ a. map to_ascii_lowercase value.now ≡ name_of a) }
        ensures found { (a : HashAlgorithm) → map to_ascii_lowercase value.now ≡ name_of a
            → result ≡ Some a }
    {
        if value.eq_ignore_ascii_case("md5") {
            Some(HashAlgorithm::Md5)
        } else if value.eq_ignore_ascii_case("fnv1a") {
            Some(HashAlgorithm::Fnv1a)
        } else if value.eq_ignore_ascii_case("fnv1a-decimal") {
            Some(HashAlgorithm::Fnv1aDecimal)
        } else if value.eq_ignore_ascii_case("xxh64") {
            Some(HashAlgorithm::Xxh64)
        } else if value.eq_ignore_ascii_case("xxh3") {
            Some(HashAlgorithm::Xxh3)
        } else {
            None
        }
    }

    /// The name of the algorithm.
    pub fn as_str(self) -> &'static str
        ensures { result.now ≡ name_of self }
    {
        match self {
            HashAlgorithm::Md5 => "md5",
            HashAlgorithm::Fnv1a => "fnv1a",
            HashAlgorithm::Fnv1aDecimal => "fnv1a-decimal",
            HashAlgorithm::Xxh64 => "xxh64",
            HashAlgorithm::Xxh3 => "xxh3",
        }
    }

    /// The digest of these bytes as text: upper-case hexadecimal, decimal for `Fnv1aDecimal`. It fails
    /// only by running out of memory.
    pub fn hash(self, alloc: Global, bytes: &[u8]) -> Result<TextVal, OutOfMemory>
        ensures { IfOk result (λ text. text ≡ digest self bytes.now) }
    {
        let text = match self {
            HashAlgorithm::Md5 => hex::encode_upper(alloc, md5_bytes(bytes))?,
            HashAlgorithm::Fnv1a => hex::encode_upper(alloc, fnv1a(bytes).to_be_bytes())?,
            HashAlgorithm::Fnv1aDecimal => {
                let number = fnv1a(bytes);
                format!(in alloc; "{number}")?
            }
            HashAlgorithm::Xxh64 => hex::encode_upper(alloc, xxh64(bytes).to_be_bytes())?,
            HashAlgorithm::Xxh3 => hex::encode_upper(alloc, xxh3_64(bytes).to_be_bytes())?,
        };
        Ok(TextVal::new(text))
    }

    /// The same digest in place, without memory.
    pub fn hash_into(self, bytes: &[u8]) -> HashText
        ensures { result ≡ digest self bytes.now }
    {
        match self {
            HashAlgorithm::Md5 => HashText::of_md5(bytes),
            HashAlgorithm::Fnv1a => HashText::of_word(fnv1a(bytes)),
            HashAlgorithm::Fnv1aDecimal => HashText::of_number(fnv1a(bytes)),
            HashAlgorithm::Xxh64 => HashText::of_word(xxh64(bytes)),
            HashAlgorithm::Xxh3 => HashText::of_word(xxh3_64(bytes)),
        }
    }
}
