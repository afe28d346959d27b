// A view of an archive in its bytes.
ghost use Rattle.std.specs.Prelude.{◌≡◌, IfErr, IfOk, Err, Ok, Some, take};
ghost use Rattle.pm_reader.specs.Common.{archive_tile, opened, opened_front};
ghost use Rattle.pm_reader.specs.Opening.{IsOpenRefusal};
ghost use Rattle.pm_reader.specs.View.{IsRooted, IsTextRefusal, IsTileRefusal, headed, metadata_of, text_behind, text_read, tile_behind, viewed};

mod cursors;
mod follow;
mod scan;

use crate::front::find_root;
use crate::look_up::MAX_LEAVES;
use crate::state::FRONT;
use follow::{follow, range};
use pm_format::{Header, PmtError, PmtResult, ReadCause};
use scan::find_in;
use std::marker::Model;
use std::str;
use tile_ids::TileId;

/// An archive in bytes that are borrowed, as those of a mapped file. It takes no memory and copies nothing: each tile
/// and the metadata are slices of the bytes.
///
/// A slice lives as long as the bytes do, and longer than the view if need be. One that is kept past its bytes doesn't
/// compile: the borrow checker refuses it. A look-up reads each directory on its way from the front, in time linear in
/// its entries; a reader with a cache searches decoded directories by halves.
#[derive(Drop)]
pub struct ArchiveView<'b> {
    bytes: &'b [u8],
    header: Header,
    root: &'b [u8],
}

impl<'b> Model for ArchiveView<'b> {
    ghost use Rattle.std.specs.Prelude.{List, ℕ};
    ghost use Rattle.pm_reader.specs.Common.{opened};
    ghost use Rattle.pm_reader.specs.View.{IsRooted};

    ghost Value = { List ℕ };

    ghost view = { λ v. v.bytes.now };

    ghost invariant = { λ v. IsRooted (opened v.bytes.now) v.header v.root.now };
}

impl<'b> ArchiveView<'b> {
    /// Opens the archive in these bytes: the header and the root are looked for in the first 16,384 of them.
    ///
    /// The first of these that holds is answered: `InvalidHeader` for fewer than 127 bytes; the refusals of
    /// `Header::try_from_bytes`; `InvalidHeader` for a root that begins before byte 127 or ends past the
    /// first 16,384; `UnsupportedCompression` for directories that aren't labelled `None`; `InvalidEntry` for
    /// a root that doesn't decode.
    pub fn open(bytes: &'b [u8]) -> PmtResult<ArchiveView<'b>>
        ensures answer { result ≡ viewed bytes.now (opened bytes.now) }
        ensures refusal { IfErr result IsOpenRefusal }
    {
        let (header, root) = open_in_place(front_of(bytes))?;
        Ok(ArchiveView {
            bytes,
            header,
            root,
        })
    }

    /// The header of the archive.
    pub fn header(&self) -> &Header
        ensures { headed (opened self.now) ≡ Ok result.now }
    {
        &self.header
    }

    /// The metadata of the archive, as it stands there. `InvalidMetadataUtf8Encoding` comes exactly where it isn't
    /// UTF-8, and `Reading(PastEnd)` where its range passes the end of the bytes or u64.
    pub fn metadata(&self) -> PmtResult<&'b str>
        ensures answer { text_behind result ≡ metadata_of self.now }
        ensures refusal { IfErr result IsTextRefusal }
    {
        let Some(bytes) = range(
            self.bytes,
            0,
            self.header.metadata_offset,
            self.header.metadata_length,
        ) else {
            return Err(PmtError::Reading(ReadCause::PastEnd));
        };
        text(bytes)
    }

    /// The contents of a tile; none where there is no tile. A leaf that doesn't decode is `InvalidEntry`. A range past
    /// the end of the bytes or u64 is `Reading(PastEnd)`.
    pub fn get_tile(&self, tile_id: TileId) -> PmtResult<Option<&'b [u8]>>
        ensures answer { tile_behind result ≡ archive_tile self.now tile_id }
        ensures refusal { IfErr result IsTileRefusal }
    {
        follow(
            self.bytes,
            &self.header,
            self.root,
            tile_id.value(),
            MAX_LEAVES,
        )
    }
}

// The first bytes, in which the header and the root lie.
fn front_of(bytes: &[u8]) -> &[u8]
    ensures { result.now ≡ take 16384 bytes.now }
{
    if bytes.len() > FRONT {
        &bytes[..FRONT]
    } else {
        bytes
    }
}

// The header and the bytes of the root that the front of an archive has, where these are a directory.
fn open_in_place<'b>(front: &'b [u8]) -> PmtResult<(Header, &'b [u8])>
    ensures found { IfOk result (λ r. IsRooted (opened_front front.now) r.0 r.1.now) }
    ensures refused { IfErr result (λ e. opened_front front.now ≡ Err e) }
{
    let (header, root) = find_root(front)?;
    find_in(root, 0)?;
    Ok((header, root))
}

// Bytes as a text.
fn text(bytes: &[u8]) -> PmtResult<&str>
    ensures answer { text_behind result ≡ text_read (Ok bytes.now) }
    ensures refusal { IfErr result IsTextRefusal }
{
    match str::from_utf8(bytes) {
        Ok(text) => Ok(text),
        Err(_) => Err(PmtError::InvalidMetadataUtf8Encoding),
    }
}
