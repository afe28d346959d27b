//! Five digests of bytes: MD5, FNV-1a in hexadecimal and in decimal, XXH64 and XXH3.
#![tactic(auto)]

mod algorithm;
mod fnv;
mod hash_stream;
mod hash_text;
pub mod laws;
mod md5_hex;
mod words;
mod xxh3;
mod xxh_64;

pub use algorithm::HashAlgorithm;
pub use fnv::fnv1a;
pub use hash_stream::HashStream;
pub use hash_text::HashText;
pub use md5_hex::md5_text;
pub use xxh_64::xxh64;
pub use xxh3::xxh3_64;
