// Marks in the order of their ids.
ghost use Rattle.std.specs.Prelude.{◌≡◌, IfSome, is_some, map};
ghost use Rattle.tile_streaming.specs.Common.{nat_cmp};
ghost use Rattle.mb_lists.specs.Keyed.{are_distinct};
ghost use Rattle.std.specs.List.Sorted.{IsNonDecreasingBy, IsPermutation};

use crate::mark::Mark;

/// Puts marks in the order of their ids.
pub(crate) fn sort_by_id(marks: &mut Vec<Mark>)
    ensures same { IsPermutation marks.old.items marks.new.items }
    ensures rising { IsNonDecreasingBy (λ m. m.id) marks.new.items }
{
    marks.sort_unstable_by_key(|mark| mark.id);
}

// Whether no two of marks in the order of their ids have one id.
fn are_apart(marks: &[Mark]) -> bool
    requires { IsNonDecreasingBy (λ m. m.id) marks.now }
    ensures { result ≡ are_distinct nat_cmp (map (λ m. m.id) marks.now) }
{
    marks.is_sorted_by(|a, b| a.id.value() < b.id.value())
}

/// Marks in the order of their ids, and none where two have one id.
pub(crate) fn in_order(mut marks: Vec<Mark>) -> Option<Vec<Mark>>
    ensures same { IfSome result (λ l. IsPermutation marks.items l.items) }
    ensures rising { IfSome result (λ l. IsNonDecreasingBy (λ m. m.id) l.items) }
    ensures apart { is_some result ≡ are_distinct nat_cmp (map (λ m. m.id) marks.items) }
{
    sort_by_id(&mut marks);
    if are_apart(&marks) { Some(marks) } else { None }
}
