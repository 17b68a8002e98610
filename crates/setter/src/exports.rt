// The functions that C and Rust call: the crate `setter_c` exports them under their names.
ghost use Rattle.std.specs.Prelude.{◌^◌, ◌<◌};
ghost use Rattle.leaves.specs.Refusal.Verdict.{answer};
ghost use Rattle.setter.specs.Exports.{Halves, CheckPromise, SetPromise};

use crate::answer::{setting_number, setting_value};
use crate::machine::set;
use blocks::answer::{answer_number, answer_value};
use blocks::check::check;

// The number of an answer is multiplied by this: it is in the upper half, and the value in the lower.
const UPPER: u64 = 1 << 32;

// An answer in the two halves of one number.
fn packed(number: u32, value: usize) -> u64
    requires { value < 2 ^ 32 }
    ensures { Halves result (answer number value) }
{
    u64::from(number) * UPPER + value as u64
}

// The check. Its promise is the check's, for the answer and for the whole report.
pub fn reedsander_check(sheet: &[u32], text: &[u8], report: &mut [u32]) -> u64
    ensures { CheckPromise sheet.now text.now report.old result report.new }
{
    let checked = check(sheet, text, report);
    packed(answer_number(checked), answer_value(checked))
}

// The setting machine. Its promise is the machine's, for the answer and for every mark.
pub fn reedsander_set(sheet: &[u32], text: &[u8], marks: &mut [u32]) -> u64
    ensures { SetPromise sheet.now text.now marks.old result marks.new }
{
    let set = set(sheet, text, marks);
    packed(setting_number(set), setting_value(set))
}
