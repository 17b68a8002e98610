// The check of a sheet and its text.
ghost use Rattle.std.specs.Prelude.{◌≡◌};
ghost use Rattle.leaves.specs.Sheet.Records.{records_of};
ghost use Rattle.leaves.specs.Report.Entries.{empty_tally, after};
ghost use Rattle.leaves.specs.Refusal.Formed.{Sound};
ghost use Rattle.blocks.specs.Walk.{validate_document};
ghost use Rattle.blocks.specs.Check.{checked_answer, check_outcome};

use crate::answer::CheckError;
use crate::walk::validate_document;
use leaves::refusal::judge::accept;
use leaves::report::entries::Tally;

// How many words and entries the list has: a walk with an empty report, which writes nothing.
fn measure(sheet: &[u32], text: &[u8]) -> Tally
    requires { Sound sheet.now text.now }
    ensures { result ≡ after empty_tally (validate_document sheet.now text.now) }
{
    let mut none = [0u32; 0];
    validate_document(sheet, text, &mut none)
}

// Refuses a malformed sheet by number and changes no lent word; or writes the whole list into the report's front.
// It measures the list before it says that the report is short, and does not walk again to write a list of no entries.
#[tactic(auto, unfolding(crate::specs::Check::check_outcome))]
pub fn check(sheet: &[u32], text: &[u8], report: &mut [u32]) -> Result<usize, CheckError>
    ensures { (checked_answer result, report.new) ≡
        check_outcome sheet.now text.now report.old }
{
    accept(sheet, text)?;
    let need = measure(sheet, text);
    if need.entries == 0 {
        return Ok(0);
    }
    if report.len() < need.words {
        return Err(CheckError::ShortReport);
    }
    let listed = validate_document(sheet, text, report);
    Ok(listed.entries)
}
