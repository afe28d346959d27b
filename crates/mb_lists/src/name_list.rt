// Names in the order of their bytes, with marks of removed ones behind.
ghost use Rattle.std.specs.Prelude.{◌≡◌, All, Contains, IfErr, IfNone, IfOk, IfSome, None, false, filter_map, map, option_copied};
ghost use Rattle.mb_lists.specs.Common.{IsPermutation, name_kind_wrong, nat_cmp, slice_cmp, Tests};
ghost use Rattle.std.specs.Option.{option_or};
ghost use Rattle.mb_lists.specs.Entries.{AreNamesInOrder, IsName, is_name_gone, name_of, names_held, newest_names};
ghost use Rattle.mb_lists.specs.FromRows.{name_from};
ghost use Rattle.mb_lists.specs.Keyed.{Apart, IsAt, IsGap, StandsAs, are_distinct, live_at};
ghost use Rattle.mb_lists.specs.Metadata.{name_twice, names_of};
ghost use Rattle.mb_lists.specs.declared.entries.Standing.TheVariants.{Kept};

use crate::entries::{Standing, StoredName};
use base_values::OutOfMemory;
use mb_tables::{Cell, MbtError, MbtResult, Row, have_name_kinds};
use std::alloc::Global;

/// Names in the order of their bytes, `live` of them, and behind them the marks.
#[derive(Debug, Drop)]
pub struct NameList {
    pub items: Vec<StoredName>,
    pub live: usize,
}

// Takes the cells of a row of metadata apart; a row of a null name has none.
fn name_from(row: Row) -> Option<StoredName>
    ensures { result ≡ name_from row }
{
    let mut cells = row.into_cells().into_iter();
    let name = cells.next();
    let value = cells.next().unwrap_or(Cell::Null);
    match name {
        Some(Cell::Text(name)) => Some(StoredName {
            name,
            value,
            standing: Standing::Kept,
        }),
        _ => None,
    }
}

// The names of all rows that have one.
fn names_from(alloc: Global, rows: Vec<Row>) -> Result<Vec<StoredName>, OutOfMemory>
    ensures { IfOk result (λ names. names.items ≡ filter_map name_from rows.items) }
{
    let mut names = Vec::with_capacity(alloc, rows.len())?;
    for row in rows {
        if let Some(name) = name_from(row) {
            names.push(name)?;
        }
    }
    Ok(names)
}

impl NameList {
    /// Names in the order of their bytes, and none where two are equal.
    fn in_order(mut items: Vec<StoredName>) -> Option<NameList>
        requires { All (λ n. is_name_gone n ≡ false) items.items }
        ensures order { IfSome result (λ l. AreNamesInOrder l.live l.items.items) }
        ensures same { IfSome result (λ l. IsPermutation items.items l.items.items) }
        ensures twice { IfNone result
            (are_distinct (slice_cmp nat_cmp) (map name_of items.items) ≡ false) }
    {
        items.sort_unstable_by(|a, b| a.name.cmp(&b.name));
        if !items.is_sorted_by(|a, b| a.name.cmp(&b.name).is_lt()) {
            return None;
        }
        let live = items.len();
        Some(NameList { items, live })
    }

    // Puts different names in their order, the marks behind them, and answers how many aren't marks.
    fn settle(items: &mut Vec<StoredName>) -> usize
        requires { Apart (slice_cmp nat_cmp) name_of items.old.items }
        ensures order { AreNamesInOrder result items.new.items }
        ensures same { IsPermutation items.old.items items.new.items }
    {
        items.sort_unstable_by(|a, b| a.compare_settled(b));
        items.partition_point(|entry| !entry.is_mark())
    }

    /// The latest entry of each name, in order.
    pub fn newest(mut items: Vec<StoredName>) -> Result<NameList, OutOfMemory>
        ensures order { IfOk result (λ l. AreNamesInOrder l.live l.items.items) }
        ensures same { IfOk result
            (λ l. StandsAs (slice_cmp nat_cmp) name_of (newest_names items.items) l.items.items) }
        ensures from { IfOk result (λ l. All (Contains items.items) l.items.items) }
    {
        items.reverse();
        items.sort_by(|a, b| a.name.cmp(&b.name))?;
        items.dedup_by(|a, b| a.name.cmp(&b.name).is_eq());
        let live = NameList::settle(&mut items);
        Ok(NameList { items, live })
    }

    /// Where a name is, or where it would go.
    pub(crate) fn search(&self, name: &str) -> Result<usize, usize>
        requires { AreNamesInOrder self.now.live self.now.items.items }
        ensures found { IfOk result
            (IsAt (slice_cmp nat_cmp) name_of self.now.live self.now.items.items name.now) }
        ensures absent { IfErr result
            (IsGap (slice_cmp nat_cmp) name_of self.now.live self.now.items.items name.now) }
    {
        self.items[..self.live].binary_search_by(|entry| entry.name.as_str().cmp(name))
    }

    /// The entry of a name.
    pub fn get(&self, name: &str) -> Option<&StoredName>
        requires { AreNamesInOrder self.now.live self.now.items.items }
        ensures { option_copied result ≡ live_at (slice_cmp nat_cmp) name_of is_name_gone name.now
            self.now.items.items }
    {
        match self.search(name) {
            Ok(at) => Some(&self.items[at]),
            Err(_) => None,
        }
    }

    /// The names of rows of metadata, or the refusal of these.
    pub fn of_rows(alloc: Global, rows: Vec<Row>) -> MbtResult<NameList>
        ensures tests { Tests (option_or (name_kind_wrong rows.items) (name_twice rows.items))
            result }
        ensures order { IfOk result (λ l. AreNamesInOrder l.live l.items.items) }
        ensures names { IfOk result (λ l. names_held l.items.items ≡ names_of rows.items) }
        ensures kept { IfOk result (λ l. All (λ n. n.standing ≡ Kept) l.items.items) }
        ensures texts { IfOk result (λ l. All IsName l.items.items) }
    {
        if !have_name_kinds(&rows) {
            return Err(MbtError::InvalidDataFormat);
        }
        let items = names_from(alloc, rows)?;
        match NameList::in_order(items) {
            Some(names) => Ok(names),
            None => Err(MbtError::InvalidDataFormat),
        }
    }
}
