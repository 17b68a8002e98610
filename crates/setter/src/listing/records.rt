// The lines of a film's records.
ghost use Rattle.std.specs.Prelude.{◌≡◌, ◌++◌, ◌*◌, ◌≤◌, length, drop};
ghost use Rattle.leaves.specs.Sheet.Records.{record_words};
ghost use Rattle.setter.specs.Listing.Records.{most_film_records, are_records, sheet_of};

use leaves::sheet::records::RECORD_WORDS;
use leaves::text::columns::read_line;
use leaves::text::field::PLACES;

// How many bytes the line of a record has.
pub(crate) const RECORD_BYTES: usize = RECORD_WORDS * PLACES + 1;

// What stands behind the first `at` bytes; nothing where there are fewer.
pub(crate) fn behind(s: &[u8], at: usize) -> &[u8]
    ensures { result.now ≡ drop at s.now }
{
    s.get(at..).unwrap_or(&[])
}

// Reads the lines of `n` records from the front of the slice into the sheet; answers whether they are well-formed, with
// a bool as `read_line` does. The loop goes by number: `n` is what the film says, and the words behind the last record
// stay.
pub(crate) fn read_records(s: &[u8], n: usize, sheet: &mut [u32]) -> bool
    requires { (n ≤ most_film_records) × (n * record_words ≤ length sheet.old) }
    ensures { (result ≡ are_records n s.now)
        × (sheet.new ≡ sheet_of n s.now ++ drop (n * record_words) sheet.old) }
{
    let mut good = true;
    let mut rest = s;
    for i in 0..n {
        let at = i * RECORD_WORDS;
        good &= read_line(rest, &mut sheet[at..at + RECORD_WORDS]);
        rest = behind(rest, RECORD_BYTES);
    }
    good
}
