//! Bytes at places: the traits of what is read and written, and the objects that have them, in memory and over files.
#![tactic(auto)]

mod backend;
mod bytes_backend;
mod file_backend;
mod file_medium;
mod medium;
mod mem_medium;

pub use backend::{Backend, BackendResponse, ReadFault};
pub use bytes_backend::BytesBackend;
pub use file_backend::FileBackend;
pub use file_medium::FileMedium;
pub use medium::{Medium, MediumFault, WriteFault};
pub use mem_medium::MemMedium;
