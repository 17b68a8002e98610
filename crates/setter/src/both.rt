// The check and the setting machine, one after the other, on the same sheet and text.
ghost use Rattle.setter.specs.Both.{ChecksAndSets};

use crate::answer::{SetError, Setting};
use crate::machine::set;
use blocks::answer::CheckError;
use blocks::check::check;

// What each of the two answers.
#[derive(Clone, Copy, PartialEq, Eq, Debug)]
pub struct Both {
    pub checked: Result<usize, CheckError>,
    pub set: Result<Setting, SetError>,
}

// Runs the check, which writes the report, and then the machine, which writes the marks. Neither asks the other: that
// they agree is proved.
pub fn check_and_set(sheet: &[u32], text: &[u8], report: &mut [u32], marks: &mut [u32]) -> Both
    ensures { ChecksAndSets sheet.now text.now report.old marks.old
        result.checked report.new result.set marks.new }
{
    let checked = check(sheet, text, report);
    let set = set(sheet, text, marks);
    Both { checked, set }
}
