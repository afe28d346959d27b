// The front of an archive: its header and its root.
ghost use Rattle.std.specs.Prelude.{◌≡◌, ◌⊎◌, Ok, Err, IfOk, IfErr, option_copied};
ghost use Rattle.pm_reader.specs.Common.{dir_of, opened_front, root_decoded, root_placed};
ghost use Rattle.pm_reader.specs.Opening.{root_range};

use pm_format::{Compression, Directory, Header, PmtError, PmtResult};
use std::alloc::Global;

/// The header and the root that the front of an archive has. The refusals are those of the header, then of the root's
/// place, of the label of directories, and of the root's bytes.
pub(crate) fn open_front(alloc: Global, front: &[u8]) -> PmtResult<(Header, Directory)>
    ensures found { IfOk result (λ r. opened_front front.now ≡ Ok (r.0, r.1)) }
    ensures refused { IfErr result
        (λ e. (e ≡ PmtError.OutOfMemory) ⊎ (opened_front front.now ≡ Err e)) }
{
    let (header, bytes) = find_root(front)?;
    let root = Directory::decode(alloc, bytes)?;
    Ok((header, root))
}

/// The header that the front of an archive has, and the bytes in which its root is to be. The refusals are those of the
/// header, then of the root's place, and of the label of directories.
pub(crate) fn find_root<'b>(front: &'b [u8]) -> PmtResult<(Header, &'b [u8])>
    ensures found { IfOk result (λ r. opened_front front.now ≡ root_decoded r.0 (dir_of r.1.now)) }
    ensures refused { IfErr result (λ e. opened_front front.now ≡ Err e) }
{
    if front.len() < 127 {
        return Err(PmtError::InvalidHeader);
    }
    let header = Header::try_from_bytes(front)?;
    let root = labelled_root(front, &header)?;
    Ok((header, root))
}

// The bytes of the root, where the header says that they are.
fn labelled_root<'b>(front: &'b [u8], header: &Header) -> PmtResult<&'b [u8]>
    ensures found { IfOk result
        (λ root. root_placed front.now (Ok header.now) ≡ root_decoded header.now
        (dir_of root.now)) }
    ensures refused { IfErr result (λ e. root_placed front.now (Ok header.now) ≡ Err e) }
{
    let Some(root) = root_bytes(front, header) else {
        return Err(PmtError::InvalidHeader);
    };
    if header.internal_compression != Compression::None {
        return Err(PmtError::UnsupportedCompression(header.internal_compression));
    }
    Ok(root)
}

// The bytes of the root, where it lies behind the header and within the front.
fn root_bytes<'b>(front: &'b [u8], header: &Header) -> Option<&'b [u8]>
    ensures { option_copied result ≡ root_range front.now header.now }
{
    if header.root_offset < 127 {
        return None;
    }
    let end = header.root_offset.checked_add(header.root_length)?;
    if end > front.len() as u64 {
        return None;
    }
    Some(&front[header.root_offset as usize..end as usize])
}
