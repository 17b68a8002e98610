// The setting machine: it opens and closes the records of a sheet, marks those that it opens, and stops. It works from
// the sheet and its text alone.
ghost use Rattle.std.specs.Prelude.{◌≡◌, ◌*◌, ◌≤◌, length};
ghost use Rattle.leaves.specs.Sheet.Records.{record_words, records_of};
ghost use Rattle.leaves.specs.Refusal.Judge.{judge_sheet};
ghost use Rattle.setter.specs.Answer.{Answers};
ghost use Rattle.setter.specs.SetOutcome.{after_run, set_outcome};
ghost use Rattle.setter.specs.MachineRunning.{next_level};

use crate::answer::{SetError, Setting};
use crate::kept::Kept;
use crate::marks::mark_of;
use crate::stops::{closing_stop, opening_stop};
use leaves::refusal::judge::accept;
use leaves::sheet::records::{RECORD_WORDS, level_at, record_at};

// How many levels there are: the sheet's, 0, and those of the records, 1 to 64.
const LEVELS: usize = 65;

// Open records of this level or deeper close next. It is the level of record `i`; after the last record it is 1, so
// that all close. No Option: both cases are asked the same question, whether a record of that level closes.
fn next_level(sheet: &[u32], n: usize, i: usize) -> u32
    requires { n * record_words ≤ length sheet.now }
    ensures { result ≡ next_level sheet.now n i }
{
    if i < n { level_at(sheet, i) } else { 1 }
}

// Opens and closes the records one after another until one stops. `open` is a stack in fixed memory, since nothing may
// be allocated: it has by level what is kept of each open record, and `depth` is the level of the innermost. Each turn
// of the loop is an opening or a closing; a `for` over the records would need a loop of closings inside it.
fn run_records(sheet: &[u32], text: &[u8], marks: &mut [u32], n: usize) -> Setting
    requires { (judge_sheet sheet.now text.now ≡ Ok tt)
        × (n ≡ records_of sheet.now)
        × (n ≤ length marks.old) }
    ensures { Answers (after_run sheet.now text.now marks.old)
        (Ok result) marks.new }
{
    let mut open = [Kept::the_sheet(); LEVELS];
    let mut depth: usize = 0;
    let mut i: usize = 0;
    while i < n || 0 < depth {
        let level = next_level(sheet, n, i) as usize;
        let k = open[depth];
        if level <= depth {
            let r = record_at(sheet, k.at as usize);
            let around = open[depth - 1];
            if let Some(stop) = closing_stop(r, k, around) {
                return Setting::Stopped(stop, k.at);
            }
            depth -= 1;
            open[depth] = around.after_kid(r);
            continue;
        }
        let r = record_at(sheet, i);
        if let Some(stop) = opening_stop(text, r, k) {
            return Setting::Stopped(stop, i as u32);
        }
        marks[i] = mark_of(r, k);
        depth += 1;
        open[depth] = k.opened(i as u32, r);
        i += 1;
    }
    Setting::Ended(n as u32)
}

// Refuses a malformed sheet by number, or marks that are too few, and leaves every mark; else runs the machine.
#[tactic(auto, unfolding(crate::specs::SetOutcome::set_outcome))]
pub fn set(sheet: &[u32], text: &[u8], marks: &mut [u32]) -> Result<Setting, SetError>
    ensures { Answers (set_outcome sheet.now text.now marks.old)
        result marks.new }
{
    accept(sheet, text)?;
    let n = sheet.len() / RECORD_WORDS;
    if marks.len() < n {
        return Err(SetError::ShortMarks);
    }
    Ok(run_records(sheet, text, marks, n))
}
