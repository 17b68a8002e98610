// The lines that the program prints, written into its output.
ghost use Rattle.std.specs.Prelude.{◌≡◌, [], ◌∷◌, ◌++◌, ◌+◌, ◌*◌, ◌≤◌, length};
ghost use Rattle.leaves.specs.Text.Field.{places};
ghost use Rattle.leaves.specs.Text.Columns.{line, Writes};
ghost use Rattle.setter.specs.Listing.Print.{refusal_line, report_words, Prints};
ghost use Rattle.setter.specs.Listing.PrintInWords.{lines_in, front_words};

use leaves::report::entries::HEAD;
use leaves::text::columns::write_line;
use leaves::text::field::PLACES;

// How many words the program's report has.
pub(crate) const REPORT_WORDS: usize = 4096;

// How many bytes the program prints at most: a field and an LF for each word of the report, and the last line.
pub const OUTPUT_BYTES: usize = REPORT_WORDS * (PLACES + 1) + (3 * PLACES + 1);

// How many words the entry at the front has: those of its head and of its path, and no more than there are.
fn front_words(words: &[u32]) -> usize
    ensures { result ≡ front_words words.now }
{
    match words.get(HEAD - 1) {
        Some(&path) => words.len().min(HEAD + path as usize),
        None => words.len(),
    }
}

// Writes a line for each of the `n` entries at the report's front; answers where the lines end.
fn write_entries(out: &mut [u8], report: &[u32], n: usize) -> usize
    requires { length report.now * places + n ≤ length out.old }
    ensures { Writes out.old 0 (lines_in n report.now) out.new result }
{
    let mut end = 0;
    let mut rest = report;
    for _ in 0..n {
        let (entry, behind) = rest.split_at(front_words(rest));
        end = write_line(out, end, entry);
        rest = behind;
    }
    end
}

// Writes a line for each of the `n` entries at the report's front, and the last line: `n`, the stop and the record.
pub(crate) fn write_list(
    out: &mut [u8; OUTPUT_BYTES],
    report: &[u32; REPORT_WORDS],
    n: usize,
    stop: u32,
    at: u32,
) -> usize
    requires { n ≤ report_words }
    ensures { Prints out.old
        (lines_in n report.now ++ line (n ∷ stop ∷ at ∷ []))
        out.new result }
{
    let end = write_entries(out, report, n);
    let last = [n as u32, stop, at];
    write_line(out, end, &last)
}

// Writes the line of a refusal: its number and the record.
pub(crate) fn write_refusal(out: &mut [u8; OUTPUT_BYTES], number: u32, at: u32) -> usize
    ensures { Prints out.old (refusal_line number at) out.new result }
{
    let words = [number, at];
    write_line(out, 0, &words)
}
