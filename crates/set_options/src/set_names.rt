// The names of a set, with their texts or null.
ghost use Rattle.std.specs.Prelude.{◌≡◌, ◌<◌, IfOk, IfSome, map, OnOk, option_copied, slice_get};
ghost use Rattle.mb_lists.specs.Metadata.{name_twice, names_of};
ghost use Rattle.mb_tables.specs.CellKinds.{name_kind_wrong};
ghost use Rattle.mb_tables.specs.Refusals.{Tests};
ghost use Rattle.set_options.specs.Common.{entries, len, Names, option_and_then, option_or, text_at, text_cell, text_of};
ghost use Rattle.set_options.specs.SetNames.{name_put, names_put, stored_name};

use base_values::{OutOfMemory, TextVal};
use mb_lists::{NameList, Standing, StoredName};
use mb_loaded::{Editing, Loaded};
use mb_store::{Cell, MbtResult, Row};
use std::alloc::Global;
use std::marker::Model;

/// What has the names of a set.
pub(crate) trait HasNames {
    /// The names, each with a text or null.
    ghost names: { Self → Names };

    /// The text under a name. None where there is no such name, or null under it.
    fn said(&self, name: &str) -> Option<&TextVal>
        ensures { option_copied result ≡ text_at (names self.now) name.now };

    /// How many names there are.
    fn name_count(&self) -> usize
        ensures { result ≡ len (names self.now) };

    /// The name at an index below `name_count`, in the order of the names' bytes, with a text or null.
    fn name_at(&self, index: usize) -> (&str, &Cell)
        requires { index < len (names self.now) }
        ensures { IfSome (slice_get (entries (names self.now)) index)
            (λ e. (e.0 ≡ result.0.now) × (text_cell e.1 ≡ result.1.now)) };
}

impl HasNames for Loaded {
    ghost names = { λ set. set.state.metadata };

    fn said(&self, name: &str) -> Option<&TextVal> {
        self.text(name)
    }

    fn name_count(&self) -> usize {
        self.metadata_count()
    }

    fn name_at(&self, index: usize) -> (&str, &Cell) {
        self.metadata_at(index)
    }
}

/// The names of a set, each with a text or null, without its tiles.
#[derive(Debug, Drop)]
pub struct SetNames {
    list: NameList,
}

impl Model for SetNames {
    ghost use Rattle.std.specs.Prelude.{All};
    ghost use Rattle.mb_lists.specs.Entries.{AreNamesInOrder, IsName, names_held};
    ghost use Rattle.mb_lists.specs.Metadata.{Names};
    ghost use Rattle.set_options.specs.SetNames.{names_code};

    ghost Value = { Names };

    ghost coded = { names_code };

    ghost view = { λ names. names_held names.list.items.items };

    ghost invariant = { λ names. AreNamesInOrder names.list.live names.list.items.items
        × All IsName names.list.items.items };
}

impl SetNames {
    /// The names of rows of metadata. `InvalidDataFormat` where a cell is of another kind than its column asks
    /// for, or a name stands twice.
    pub fn of_rows(alloc: Global, rows: Vec<Row>) -> MbtResult<SetNames>
        ensures tests { Tests (option_or (name_kind_wrong rows.items) (name_twice rows.items))
            result }
        ensures names { IfOk result (λ names. names ≡ names_of rows.items) }
    {
        let list = NameList::of_rows(alloc, rows)?;
        Ok(SetNames { list })
    }

    /// The text under a name. None where there is no such name, or null under it.
    pub fn text(&self, name: &str) -> Option<&TextVal>
        ensures { option_copied result ≡ text_at self.now name.now }
    {
        text_in(self.list.get(name))
    }
}

// A name of a loaded set at an index, with its text or null.
fn stored_at(alloc: Global, set: &Loaded, index: usize) -> Result<StoredName, OutOfMemory>
    requires { index < len set.now.state.metadata }
    ensures { IfOk result (λ name. IfSome (slice_get (entries set.now.state.metadata) index)
        (λ e. name ≡ stored_name e)) }
{
    let (name, value) = set.metadata_at(index);
    Ok(StoredName {
        name: TextVal::new(String::from_str(alloc, name)?),
        value: value.try_clone(alloc)?,
        standing: Standing::Kept,
    })
}

// All names of a loaded set, in the order of their bytes.
fn all_stored(alloc: Global, set: &Loaded) -> Result<Vec<StoredName>, OutOfMemory>
    ensures { IfOk result
        (λ names. names.items ≡ map stored_name (entries set.now.state.metadata)) }
{
    let mut names = Vec::with_capacity(alloc, set.metadata_count())?;
    for index in 0..set.metadata_count() {
        names.push(stored_at(alloc, set, index)?)?;
    }
    Ok(names)
}

// Puts the name at an index into a set that is edited.
fn put_name(
    alloc: Global,
    names: &SetNames,
    index: usize,
    set: &mut Editing,
) -> Result<(), OutOfMemory>
    requires { index < len names.now }
    ensures { OnOk result (IfSome (slice_get (entries names.now) index)
        (λ e. set.new ≡ name_put set.old e)) }
{
    let (name, value) = names.name_at(index);
    let name = TextVal::new(String::from_str(alloc, name)?);
    set.set_metadata(name, value.try_clone(alloc)?)
}

impl SetNames {
    /// The names of a loaded set.
    pub fn of_set(alloc: Global, set: &Loaded) -> Result<SetNames, OutOfMemory>
        ensures { IfOk result (λ names. names ≡ set.now.state.metadata) }
    {
        let items = all_stored(alloc, set)?;
        let live = items.len();
        Ok(SetNames {
            list: NameList { items, live },
        })
    }

    /// Puts all of them into a set that is edited, from the last to the first.
    pub fn put_into(&self, alloc: Global, set: &mut Editing) -> Result<(), OutOfMemory>
        ensures { OnOk result (set.new ≡ names_put set.old self.now) }
    {
        let mut left = self.name_count();
        while left > 0 {
            left -= 1;
            put_name(alloc, self, left, set)?;
        }
        Ok(())
    }
}

// The text of an entry, if there is one.
fn text_in(entry: Option<&StoredName>) -> Option<&TextVal>
    ensures { option_copied result ≡
        option_and_then (λ name. text_of name.value) (option_copied entry.entry) }
{
    match entry {
        Some(name) => match &name.value {
            Cell::Text(text) => Some(text),
            _ => None,
        },
        None => None,
    }
}

impl HasNames for SetNames {
    ghost names = { λ names. names };

    fn said(&self, name: &str) -> Option<&TextVal> {
        self.text(name)
    }

    fn name_count(&self) -> usize {
        self.list.live
    }

    fn name_at(&self, index: usize) -> (&str, &Cell) {
        let entry = &self.list.items[index];
        (entry.name.as_str(), &entry.value)
    }
}
