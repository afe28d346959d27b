// Copies.
use crate::Kept;
use crate::copiers::copier;
use rows_shared::{Words, said};
use std::alloc::Global;

/// Copies the source into the destination.
pub fn run(alloc: Global, out: &mut String, kept: &mut Kept, words: &mut Words) -> Option<()> {
    let copier = copier(alloc, words)?;
    said(out, copier.run(alloc, &mut kept.src, &mut kept.dst))
}

/// Copies the source with the patch into the destination.
pub fn patched(alloc: Global, out: &mut String, kept: &mut Kept, words: &mut Words) -> Option<()> {
    let copier = copier(alloc, words)?;
    said(
        out,
        copier.run_with_patch(alloc, &mut kept.src, &mut kept.dst, &mut kept.patch),
    )
}
