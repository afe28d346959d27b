//! The format of archives: varints, directories and headers. The media that hold them are those of byte_media.
#![tactic(auto)]

pub mod archive_laws;
mod compression;
mod directory;
mod entry;
mod entry_coords;
mod error;
mod error_name;
mod header;
pub mod header_laws;
pub mod laws;
pub mod status;
mod steps;
mod tile_type;
mod varint;
mod wide_entry;

pub use byte_media::{
    Backend, BackendResponse, BytesBackend, FileBackend, FileMedium, Medium, MediumFault,
    MemMedium, ReadFault, WriteFault,
};
pub use compression::Compression;
pub use directory::{Directory, covering, encode_entries, offset_by};
pub use entry::DirEntry;
pub use entry_coords::DirEntryCoordsIter;
pub use error::{PmtError, PmtResult, ReadCause};
pub use header::{HEADER_SIZE, Header, MAX_ROOT, ROOT_END};
pub use status::archive_status;
pub use steps::Steps;
pub use tile_type::TileType;
pub use varint::{read_varint_u32, read_varint_u64, write_varint};
pub use wide_entry::{AsWide, WideEntry};
