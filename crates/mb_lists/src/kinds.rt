// The kinds of the ids of contents.
ghost use Rattle.std.specs.Prelude.{◌≡◌};
ghost use Rattle.mb_lists.specs.Common.{is_id, list_all};

use crate::Content;
use mb_tables::{MbtType, is_id};

/// Whether all ids of contents are of their kind.
pub fn have_id_kinds(layout: MbtType, contents: &[Content]) -> bool
    ensures { result ≡ list_all (λ c. is_id layout c.id) contents.now }
{
    contents.iter().all(|content| is_id(layout, &content.id))
}
