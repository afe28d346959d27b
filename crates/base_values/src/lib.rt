//! Texts, blobs, `OutOfMemory` and counts, which every crate above shares.
#![tactic(auto)]

mod blob;
mod failing_calls;
mod memory;
mod text;
mod text_list;
mod text_order;

pub use blob::BlobVal;
pub use failing_calls::FailingCalls;
pub use memory::OutOfMemory;
pub use text::TextVal;
pub use text_list::TextList;
