// Reads a film, checks and sets its sheet, and prints what was found.
ghost use Rattle.std.specs.Prelude.{◌*◌, ◌≤◌};
ghost use Rattle.leaves.specs.Sheet.Records.{records_of};
ghost use Rattle.setter.specs.Listing.Film.{most_film_records};
ghost use Rattle.setter.specs.Listing.Print.{Prints};
ghost use Rattle.setter.specs.Listing.Program.{sheet_lines, Page};

use crate::answer::{setting_number, setting_value};
use crate::both::check_and_set;
use crate::listing::film::{MOST_FILM_RECORDS, SHEET_WORDS, read_film, text_behind};
use crate::listing::print::{OUTPUT_BYTES, REPORT_WORDS, write_list, write_refusal};
use leaves::sheet::records::RECORD_WORDS;

// `N` words of 0. It promises nothing, so that no proof computes the array.
fn words<const N: usize>() -> [u32; N] {
    [0u32; N]
}

// Checks and sets a sheet and its text, and prints the list with the stop and its record, or the refusal.
fn list_sheet(sheet: &[u32], text: &[u8], output: &mut [u8; OUTPUT_BYTES]) -> usize
    requires { records_of sheet.now ≤ most_film_records }
    ensures { Prints output.old
        (sheet_lines sheet.now text.now)
        output.new result }
{
    let mut report = words::<REPORT_WORDS>();
    let mut marks = words::<MOST_FILM_RECORDS>();
    let both = check_and_set(sheet, text, &mut report, &mut marks);
    match both.checked {
        Ok(entries) => write_list(
            output,
            &report,
            entries,
            setting_number(both.set),
            setting_value(both.set) as u32,
        ),
        Err(error) => write_refusal(output, error.number(), error.record() as u32),
    }
}

// Prints what is found in a film, or why it is refused; answers how many bytes are printed.
pub fn list(input: &[u8], output: &mut [u8; OUTPUT_BYTES]) -> usize
    ensures { Page input.now output.old output.new result }
{
    let mut sheet = words::<SHEET_WORDS>();
    match read_film(input, &mut sheet) {
        Ok(n) => list_sheet(&sheet[..n * RECORD_WORDS], text_behind(input, n), output),
        Err(error) => write_refusal(output, error.number(), 0),
    }
}
