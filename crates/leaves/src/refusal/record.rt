// The tests of one record: refusals 4 to 9.
ghost use Rattle.std.specs.Prelude.{◌≡◌, ◌≤◌};
ghost use Rattle.leaves.specs.Refusal.Limits.{most_level};
ghost use Rattle.leaves.specs.Refusal.Record.{bad_level, judge_texts, judge};

use crate::refusal::fields;
use crate::refusal::limits::MOST_LEVEL;
use crate::refusal::places::{Open, Tables};
use crate::refusal::verdict::Malformed;
use crate::sheet::records::Rec;
use crate::sheet::{kinds, texts};

// Whether a level is 0, over `MOST_LEVEL`, or over the level before plus 1.
#[tactic(auto, unfolding(crate::specs::Refusal::Record::bad_level))]
fn bad_level(before: u32, level: u32) -> bool
    requires { before ≤ most_level }
    ensures { result ≡ bad_level before level }
{
    level == 0 || MOST_LEVEL < level || before + 1 < level
}

// The tests 8 and 9.
#[tactic(auto, unfolding(crate::specs::Refusal::Record::judge_texts))]
fn judge_texts(bytes: &[u8], i: usize, r: Rec) -> Result<(), Malformed>
    ensures { result ≡ judge_texts bytes.now i r }
{
    let first = r.first;
    let second = r.second;
    if texts::text_outside(bytes, first) || texts::text_outside(bytes, second) {
        return Err(Malformed::TextOutside(i));
    }
    if texts::text_ill_formed(bytes, first) || texts::text_ill_formed(bytes, second) {
        return Err(Malformed::NotUtf8(i));
    }
    Ok(())
}

// The tests 4 to 9 of record `i`. It has six parameters, since a struct of the last four would be made for this one
// call.
#[tactic(auto, unfolding(crate::specs::Refusal::Record::judge))]
pub(crate) fn judge(
    tables: &Tables,
    bytes: &[u8],
    i: usize,
    r: Rec,
    before: u32,
    o: Open,
) -> Result<(), Malformed>
    requires { before ≤ most_level }
    ensures { result ≡ judge bytes.now i r before o }
{
    if !kinds::is_kind(r.kind) {
        return Err(Malformed::UnknownKind(i));
    }
    if bad_level(before, r.level) {
        return Err(Malformed::BadLevel(i));
    }
    if o.misplaced(tables, r.kind) {
        return Err(Malformed::Misplaced(i));
    }
    if fields::bad_field(r) {
        return Err(Malformed::BadField(i));
    }
    judge_texts(bytes, i, r)
}
