// New contents behind those that are kept.
ghost use Rattle.std.specs.Prelude.{◌≡◌, ◌++◌, ◌∷◌, ◌<◌, [], IfOk, OnOk, OnErr, length, unwrap_or, vec_capacity, vec_len};
ghost use Rattle.mb_loaded.specs.Common.{listed, Null};
ghost use Rattle.mb_loaded.specs.Edits.{dates_for, id_for};

use base_values::OutOfMemory;
use mb_lists::{Content, Dates, Standing, TileDates};
use mb_store::{Cell, MbtType};
use std::alloc::Global;
use tile_hash::HashAlgorithm;

/// The id that a layout gives bytes, null where it gives none.
pub(crate) fn id_for(
    alloc: Global,
    layout: MbtType,
    algorithm: HashAlgorithm,
    bytes: &[u8],
) -> Result<Cell, OutOfMemory>
    ensures { IfOk result (λ id. id ≡ unwrap_or (id_for layout algorithm bytes.now) Null) }
{
    match layout {
        MbtType::Normalized { .. } => Ok(Cell::Text(algorithm.hash(alloc, bytes)?)),
        _ => Ok(Cell::Null),
    }
}

/// The times that a layout gives a tile that is put: none are known.
pub(crate) fn dates_for(alloc: Global, layout: MbtType) -> Result<TileDates, OutOfMemory>
    ensures { IfOk result (λ dates. dates ≡ dates_for layout) }
{
    match layout {
        MbtType::Cache => TileDates::new(
            alloc,
            Dates {
                fetched: Cell::Null,
                expires: Cell::Null,
                etag: Cell::Null,
            },
        ),
        _ => Ok(TileDates::none()),
    }
}

/// Null without an id, as it is put.
pub(crate) fn null_content() -> Content
    ensures { result ≡ record { id = Null; cell = Null; standing = Standing.Put } }
{
    Content {
        id: Cell::Null,
        cell: Cell::Null,
        standing: Standing::Put,
    }
}

/// Adds contents, and answers their index. Refused, all is as it was.
pub(crate) fn add_content(
    contents: &mut Vec<Content>,
    content: Content,
) -> Result<usize, OutOfMemory>
    ensures index { IfOk result (λ i. i ≡ length contents.old.items) }
    ensures contents { OnOk result (contents.new.items ≡ contents.old.items ++ content ∷ []) }
    ensures same { OnErr result (contents.new.items ≡ contents.old.items) }
{
    let index = contents.len();
    contents.push(content)?;
    Ok(index)
}

/// Lists the index of contents, unless their id is null.
pub(crate) fn list_id(order: &mut Vec<usize>, is_null: bool, index: usize)
    requires { vec_len order.old < vec_capacity order.old }
    ensures { order.new.items ≡ order.old.items ++ listed is_null index }
{
    if !is_null {
        order.push_reserved(index);
    }
}
