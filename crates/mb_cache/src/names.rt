// The tests of loading over the metadata of a cache.
ghost use Rattle.std.specs.Prelude.{◌≡◌, option_and_then, option_copied};
ghost use Rattle.mb_cache.specs.Seen.{names_refused};
ghost use Rattle.mb_cache.specs.Common.{Tests, text_of};

use base_values::TextVal;
use mb_constraints::algorithm_by;
use mb_lists::{NameList, StoredName};
use mb_store::{Cell, HASH_ALGORITHM, MbtResult, Row};
use std::alloc::Global;

// The text that is stored under a name, if there is one.
fn text_in(entry: Option<&StoredName>) -> Option<&TextVal>
    ensures { option_copied result ≡
        option_and_then (λ name. text_of name.value) (option_copied entry.entry) }
{
    match entry {
        Some(name) => match &name.value {
            Cell::Text(text) => Some(text),
            _ => None,
        },
        None => None,
    }
}

/// The tests of rows of metadata: of their kinds, of names that stand twice, and of the algorithm that they name.
pub(crate) fn test_names(alloc: Global, rows: Vec<Row>) -> MbtResult<()>
    ensures { Tests (names_refused rows.items) result }
{
    let names = NameList::of_rows(alloc, rows)?;
    algorithm_by(alloc, text_in(names.get(HASH_ALGORITHM)))?;
    Ok(())
}
