// Which sheets are refused, with which number and record.
ghost use Rattle.std.specs.Prelude.{◌≡◌, ◌≤◌, ◌*◌, length};
ghost use Rattle.leaves.specs.Sheet.Records.{record_words};
ghost use Rattle.leaves.specs.Refusal.Limits.{most_records};
ghost use Rattle.leaves.specs.Refusal.Judge.{judge_from, Judges};
ghost use Rattle.leaves.specs.Refusal.Judging.{Slot};

use crate::refusal::groups::PARENT_OF_BLOCKS;
use crate::refusal::limits::{MOST_BYTES, MOST_LEVEL, MOST_RECORDS};
use crate::refusal::places::{Open, Tables};
use crate::refusal::record::judge;
use crate::refusal::tags::judge_tags;
use crate::refusal::verdict::Malformed;
use crate::sheet::records;
use crate::sheet::records::RECORD_WORDS;

// How many slots `open` of `judge_records` has: for the levels from 0 to `MOST_LEVEL` plus 1.
const SLOTS: usize = MOST_LEVEL as usize + 2;

// The slot of a level; 0 where the level is over `MOST_LEVEL`. What stands in slot 0 decides nothing then: the record
// is refused for its level, or before that for its kind.
fn slot_of(level: u32) -> usize
    ensures { Slot level result }
{
    if level <= MOST_LEVEL {
        level as usize
    } else {
        0
    }
}

// Makes the tests 4 to 9, record by record, and answers the first refusal. `open` has, for each level that the next
// record could have, what stands before it under its parent. The loop goes by number: `Records` cannot be made before
// the levels are known to be at most `MOST_LEVEL`, and that is tested here.
fn judge_records(sheet: &[u32], bytes: &[u8], n: usize) -> Result<(), Malformed>
    requires { (n * record_words ≤ length sheet.now) × (n ≤ most_records) }
    ensures { result ≡ judge_from sheet.now bytes.now n 0 }
{
    let tables = Tables::new();
    let mut open = [Open::before_children(PARENT_OF_BLOCKS); SLOTS];
    let mut before: u32 = 0;
    for i in 0..n {
        let r = records::record_at(sheet, i);
        let slot = slot_of(r.level);
        let o = open[slot];
        judge(&tables, bytes, i, r, before, o)?;
        open[slot] = o.after_child(&tables, r.kind);
        open[slot + 1] = Open::before_children(tables.parent_group(r.kind, r.a));
        before = r.level;
    }
    Ok(())
}

// The answer for a sheet and its text: refused by 1 to 10, or accepted.
#[tactic(auto, using(crate::proofs::refusal::AcceptLaws::containers), unfolding(crate::specs::Refusal::Judge::judge_sheet, crate::specs::Refusal::Verdict::or_else))]
pub fn accept(sheet: &[u32], text: &[u8]) -> Result<(), Malformed>
    ensures { Judges sheet.now text.now result }
{
    if sheet.len() % RECORD_WORDS != 0 {
        return Err(Malformed::OddSheet);
    }
    let n = sheet.len() / RECORD_WORDS;
    if MOST_RECORDS < n {
        return Err(Malformed::LongSheet);
    }
    if MOST_BYTES < text.len() {
        return Err(Malformed::LongText);
    }
    judge_records(sheet, text, n)?;
    judge_tags(sheet, n)
}
