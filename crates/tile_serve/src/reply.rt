// The texts of replies.
ghost use Rattle.std.specs.Prelude.{◌≡◌, IfOk};
ghost use Rattle.tile_serve.specs.Reply.{text_for, tile_text, unchanged_text, whole_text};

use crate::found::Found;
use base_values::{BlobVal, OutOfMemory, TextVal};
use std::alloc::Global;
use tile_hash::HashAlgorithm;

/// A text of its own.
pub(crate) fn plain_text(alloc: Global, text: &str) -> Result<BlobVal, OutOfMemory>
    ensures { IfOk result (λ reply. reply ≡ text.now) }
{
    Ok(BlobVal::new(Vec::from_slice(alloc, text.as_bytes())?))
}

/// The reply for what was found, where the asker has a tag.
pub(crate) fn text_for(alloc: Global, found: &Found, tag: &[u8]) -> Result<BlobVal, OutOfMemory>
    ensures { IfOk result (λ reply. reply ≡ text_for found.now tag.now) }
{
    match found {
        Found::Tile(bytes) => tile_text(alloc, bytes.as_slice(), tag),
        Found::Missing => plain_text(alloc, "404\n"),
        Found::InvalidEntry => plain_text(alloc, "500 InvalidEntry\n"),
        Found::PastEnd => plain_text(alloc, "500 PastEnd\n"),
    }
}

// A tile's reply.
fn tile_text(alloc: Global, bytes: &[u8], tag: &[u8]) -> Result<BlobVal, OutOfMemory>
    ensures { IfOk result (λ reply. reply ≡ tile_text bytes.now tag.now) }
{
    let digest = HashAlgorithm::Xxh3.hash(alloc, bytes)?;
    if digest.as_str().as_bytes() == tag {
        unchanged_text(alloc, &digest)
    } else {
        whole_text(alloc, &digest, bytes)
    }
}

// The asker has the bytes of this tag.
fn unchanged_text(alloc: Global, digest: &TextVal) -> Result<BlobVal, OutOfMemory>
    ensures { IfOk result (λ reply. reply ≡ unchanged_text digest.now) }
{
    let text = format!(in alloc; "304 {digest}\n")?;
    Ok(BlobVal::new(text.into_bytes()))
}

// The tag and all bytes.
fn whole_text(alloc: Global, digest: &TextVal, bytes: &[u8]) -> Result<BlobVal, OutOfMemory>
    ensures { IfOk result (λ reply. reply ≡ whole_text digest.now bytes.now) }
{
    let digits = hex::encode(alloc, bytes)?;
    let text = format!(in alloc; "200 {digest} {digits}\n")?;
    Ok(BlobVal::new(text.into_bytes()))
}
