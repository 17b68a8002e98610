// The marks of the records that open.
ghost use Rattle.std.specs.Prelude.{◌≡◌, true, ◌≤◌};
ghost use Rattle.leaves.specs.Refusal.Limits.{most_item_number};
ghost use Rattle.setter.specs.Marks.{mark_of};
ghost use Rattle.setter.specs.Kept.{seen_by, most_kids};

use crate::kept::Kept;
use leaves::sheet::kinds;
use leaves::sheet::records::Rec;

// The mark of record r as it opens under the record of which `k` is kept.
#[tactic(auto, unfolding(crate::specs::Marks::mark_of))]
pub(crate) fn mark_of(r: Rec, k: Kept) -> u32
    requires { (k.kids ≤ most_kids) × (k.start_number ≤ most_item_number) }
    ensures { result ≡ mark_of r (seen_by r k 0 true) }
{
    match r.kind {
        kinds::HEADING => r.a,
        kinds::CELL => k.kids + 1,
        kinds::ITEM if k.ordered => k.start_with(r) + k.kids,
        _ => 0,
    }
}
