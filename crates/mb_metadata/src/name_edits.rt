// Edits of names of metadata, in one commit.
ghost use Rattle.mb_metadata.specs.Common.{FaultsCounted, is_free, Keeps};
ghost use Rattle.std.specs.Prelude.{◌≡◌, ◌++◌, ◌∷◌, [], List, true, IfErr, IfOk, IsOk, OnErr, OnOk, option_to_list};
ghost use Rattle.mb_metadata.specs.NameEdits.{AreEdited, IsFresh, held_edited, put_of, removal};

use base_values::{OutOfMemory, TextVal};
use mb_load::commit_loaded;
use mb_loaded::{Editing, Loaded};
use mb_store::{Cell, MbtError, MbtResult, TileStore};
use std::alloc::Global;

/// An edit of a name of metadata: the text that is put under it, None where the name is removed.
#[derive(Debug, Drop)]
pub(crate) struct NameEdit {
    pub name: TextVal,
    pub text: Option<TextVal>,
}

impl NameEdit {
    /// A text is put under a name.
    pub(crate) fn put(alloc: Global, name: &str, text: TextVal) -> Result<NameEdit, OutOfMemory>
        ensures { IfOk result (λ e. e ≡ put_of name.now text) }
    {
        Ok(NameEdit {
            name: TextVal::new(String::from_str(alloc, name)?),
            text: Some(text),
        })
    }

    /// A name is removed, if it is there.
    pub(crate) fn removal(
        alloc: Global,
        set: &Loaded,
        name: &str,
    ) -> Result<Option<NameEdit>, OutOfMemory>
        ensures { IfOk result (λ e. e ≡ removal set.now.state.metadata name.now) }
    {
        match set.metadata(name) {
            Some(_) => Ok(Some(NameEdit {
                name: TextVal::new(String::from_str(alloc, name)?),
                text: None,
            })),
            None => Ok(None),
        }
    }
}

/// Adds an edit, if there is one.
pub(crate) fn push_any(edits: &mut Vec<NameEdit>, edit: Option<NameEdit>) -> Result<(), OutOfMemory>
    ensures { OnOk result (edits.new.items ≡ edits.old.items ++ option_to_list edit) }
{
    match edit {
        Some(edit) => Ok(edits.push(edit)?),
        None => Ok(()),
    }
}

// Makes one edit of a set. Whatever edits follow, the set after all of them is the same.
fn make(set: &mut Editing, edit: NameEdit) -> Result<(), OutOfMemory>
    ensures { OnOk result ((rest : List NameEdit)
        → held_edited set.new rest ≡ held_edited set.old (edit ∷ rest)) }
{
    let NameEdit { name, text } = edit;
    match text {
        Some(text) => set.set_metadata(name, Cell::Text(text)),
        None => set.clear_metadata(name.as_str()),
    }
}

/// A loaded set after edits.
pub(crate) fn after_edits(set: Loaded, edits: Vec<NameEdit>) -> Result<Loaded, OutOfMemory>
    ensures { IfOk result (λ h. h ≡ held_edited set edits.items) }
{
    let mut editing = set.edit();
    for edit in edits {
        make(&mut editing, edit)?;
    }
    editing.settle()
}

/// Makes edits of a set as it was loaded, in one commit to its store. Where there is none it doesn't touch the store.
/// Only running out of memory and a fault of the store refuse it, and then the store holds what it held.
pub(crate) fn commit_edits<S: TileStore>(
    alloc: Global,
    store: &mut S,
    set: Loaded,
    edits: Vec<NameEdit>,
) -> MbtResult<()>
    requires { S.tells store.old ≡ true → IsFresh (S.told store.old) set }
    ensures committed { S.tells store.old ≡ true → OnOk result
        (AreEdited set.state edits.items (S.told store.old) (S.told store.new)) }
    ensures untouched { edits.items ≡ [] → store.new ≡ store.old }
    ensures idle { edits.items ≡ [] → IsOk result }
    ensures refused { OnErr result (S.told store.new ≡ S.told store.old) }
    ensures free { IfErr result (λ e. is_free e ≡ true) }
    ensures kept { Keeps S.tells S.faults S.steady store.old store.new }
    ensures fault { FaultsCounted S.faults store.old store.new result MbtError.StoreFault }
{
    if edits.is_empty() {
        return Ok(());
    }
    let edited = after_edits(set, edits)?;
    commit_loaded(alloc, store, &edited)?;
    Ok(())
}
