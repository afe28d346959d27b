// The indexes of a described table.
ghost use Rattle.std.specs.Prelude.{◌≡◌, IfOk};

use base_values::{OutOfMemory, TextList, TextVal};
use std::alloc::Global;
use std::marker::Model;

/// A described index: the names of its columns, and whether it keeps equal rows out.
#[derive(Debug, Drop)]
pub struct IndexDesc {
    /// Whether no two rows may be equal in its columns, where none of them is null.
    pub unique: bool,
    /// The names of its columns.
    pub columns: TextList,
}

impl IndexDesc {
    /// A second description of the same index.
    pub fn try_clone(&self, alloc: Global) -> Result<IndexDesc, OutOfMemory>
        ensures { IfOk result (λ copy. copy ≡ self.now) }
    {
        let columns = clone_texts(alloc, self.columns.as_slice())?;
        Ok(IndexDesc {
            unique: self.unique,
            columns: TextList::new(columns),
        })
    }
}

// A second list of the same texts.
fn clone_texts(alloc: Global, texts: &[TextVal]) -> Result<Vec<TextVal>, OutOfMemory>
    ensures { IfOk result (λ copies. copies.items ≡ texts.now) }
{
    let mut copies = Vec::with_capacity(alloc, texts.len())?;
    for text in texts {
        copies.push(text.try_clone(alloc)?)?;
    }
    Ok(copies)
}

/// The indexes of a described table in order.
#[derive(Debug, Drop)]
pub struct IndexList {
    indexes: Vec<IndexDesc>,
}

impl Model for IndexList {
    ghost use Rattle.std.specs.Prelude.{List};
    ghost use Rattle.mb_tables.specs.declared.index.IndexDesc.{IndexDesc};

    ghost Value = { List IndexDesc };

    ghost view = { λ l. l.indexes.items };
}

impl IndexList {
    /// The list of these indexes.
    pub fn new(indexes: Vec<IndexDesc>) -> IndexList
        ensures { result ≡ indexes.items }
    {
        IndexList { indexes }
    }

    /// The indexes in order.
    pub fn as_slice(&self) -> &[IndexDesc]
        ensures { result.now ≡ self.now }
    {
        self.indexes.as_slice()
    }

    /// A second list of the same indexes.
    pub fn try_clone(&self, alloc: Global) -> Result<IndexList, OutOfMemory>
        ensures { IfOk result (λ copy. copy ≡ self.now) }
    {
        let mut indexes = Vec::with_capacity(alloc, self.indexes.len())?;
        for index in &self.indexes {
            indexes.push(index.try_clone(alloc)?)?;
        }
        Ok(IndexList { indexes })
    }
}
