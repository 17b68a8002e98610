// The machine's stops, from what is kept of the records that are open. Document 01's table of them is in
// specs/Stops.antt.
ghost use Rattle.std.specs.Prelude.{◌≡◌, ℕ, true, List, [], ◌∷◌};
ghost use Rattle.leaves.specs.Sheet.Kinds.{among, leaf_directive, container_directive, cell};
ghost use Rattle.setter.specs.Stops.{opening, closing, stop_at};
ghost use Rattle.setter.specs.Answer.{number_in};
ghost use Rattle.setter.specs.Kept.{seen_by};

use crate::answer::Stop;
use crate::kept::Kept;
use leaves::refusal::limits::MOST_ITEM_NUMBER;
use leaves::sheet::kinds;
use leaves::sheet::records::Rec;
use leaves::sheet::texts::text_of;
use leaves::text::lines::holds_line_ending;
use leaves::text::marker::written_marker;

// Whether the kind is a cell, leaf directive or container directive, whose inlines stand on one line.
fn is_one_line(kind: u32) -> bool
    ensures { result ≡ among kind (cell ∷ leaf_directive ∷ container_directive ∷ []) }
{
    matches!(
        kind,
        kinds::CELL | kinds::LEAF_DIRECTIVE | kinds::CONTAINER_DIRECTIVE
    )
}

// The stop of record r as it opens under the record of which `k` is kept: the first in the order of the table.
#[tactic(auto, unfolding(crate::specs::Stops::stop_at))]
pub(crate) fn opening_stop(bytes: &[u8], r: Rec, k: Kept) -> Option<Stop>
    ensures { number_in result ≡ stop_at opening bytes.now r (seen_by r k 0 true) }
{
    match r.kind {
        kinds::CELL if k.columns <= k.kids => Some(Stop::CellTooMany),
        kinds::SOFT_BREAK | kinds::LINE_BREAK if is_one_line(k.nearest) => Some(Stop::BreakInLine),
        kinds::LINK | kinds::AUTOLINK | kinds::LINK_REFERENCE | kinds::WIKI_LINK if k.linked => {
            Some(Stop::LinkInLink)
        }
        kinds::HEADING if !(1..=6).contains(&r.a) => Some(Stop::HeadingDepth),
        kinds::ITEM if k.ordered && r.b == 1 && MOST_ITEM_NUMBER < r.c => Some(Stop::ItemNumber),
        kinds::ITEM if !k.ordered && r.b == 1 => Some(Stop::BulletNumber),
        kinds::SOFT_BREAK if k.broke => Some(Stop::BreakAfterBreak),
        kinds::LINE_BREAK if r.a == 1 && k.broke => Some(Stop::BreakAfterBreak),
        kinds::FRONTMATTER if 1 < r.level => Some(Stop::InnerFrontmatter),
        kinds::TEXT | kinds::CODE if holds_line_ending(text_of(bytes, r.first)) => {
            Some(Stop::LineEnding)
        }
        kinds::LIST if k.marker == written_marker(r.a, r.b) => Some(Stop::AdjacentLists),
        _ => None,
    }
}

// The stop of record r as it closes: the first in the order of the table. `k` is kept of r, and `around` of the record
// that holds it. No closing asks for the text, so the promise is for every text.
#[tactic(auto, unfolding(crate::specs::Stops::stop_at))]
pub(crate) fn closing_stop(r: Rec, k: Kept, around: Kept) -> Option<Stop>
    ensures { (bytes : List ℕ) → number_in result ≡ stop_at closing bytes r (seen_by r around k.kids k.empty) }
{
    match r.kind {
        kinds::ROW if k.kids < around.columns => Some(Stop::CellTooFew),
        kinds::TABLE if k.kids == 0 || r.a == 0 => Some(Stop::EmptyTable),
        kinds::LIST if k.kids == 0 => Some(Stop::EmptyList),
        kinds::PARAGRAPH | kinds::EMPHASIS | kinds::STRONG | kinds::DELETE | kinds::MARK
            if k.empty => { Some(Stop::EmptyContent) }
        _ => None,
    }
}
