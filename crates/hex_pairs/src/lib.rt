//! Many hexadecimal digits: their bytes, and the digits of bytes, sixteen at a time. What the crate `hex` decodes and
//! encodes, in a small part of its time.
#![tactic(auto)]

mod block;
mod decoding;
mod digit_lanes;
mod encoding;
mod tables;
mod value_lanes;

pub use decoding::decode;
pub use encoding::encode_into;
