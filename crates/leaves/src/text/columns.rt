// Reads and writes lines of fields, each ended by LF.
ghost use Rattle.std.specs.Prelude.{◌≡◌, ◌+◌, ◌≤◌, eqb, length, get_or};
ghost use Rattle.leaves.specs.Text.Bytes.{lf};
ghost use Rattle.leaves.specs.Text.Columns.{line, line_bytes, is_line, numbers, Writes};

use crate::text::bytes::LF;
use crate::text::field::{PLACES, read_field, write_field};
use crate::text::part::part;

// Whether LF stands at a place.
fn ends_at(s: &[u8], at: usize) -> bool
    ensures { result ≡ eqb (get_or s.now at 0) lf }
{
    at < s.len() && s[at] == LF
}

// Reads a line from the front of the slice, a field for each of the words, and answers whether it is well-formed. The
// word of a malformed field is 0, and the fields behind it are read all the same: every word is promised, so `?` cannot
// end the loop early.
pub fn read_line(s: &[u8], words: &mut [u32]) -> bool
    requires { length words.old ≤ 12 }
    ensures { (result ≡ is_line (length words.old) s.now)
        × (words.new ≡ numbers (length words.old) s.now) }
{
    let mut good = true;
    for (k, word) in words.iter_mut().enumerate() {
        let field = read_field(part(s, k * PLACES, PLACES));
        *word = field.unwrap_or(0);
        good &= field.is_some();
    }
    good && ends_at(s, words.len() * PLACES)
}

// Writes a line of these numbers from `at` on, and answers where it ends.
pub fn write_line(out: &mut [u8], at: usize, words: &[u32]) -> usize
    requires { at + line_bytes (length words.now) ≤ length out.old }
    ensures { Writes out.old at (line words.now) out.new result }
{
    let mut end = at;
    // not by `chunks_exact_mut`: the fields would have to be cut out of the output first, and the LF stands behind them
    for &word in words {
        write_field(out, end, word);
        end += PLACES;
    }
    out[end] = LF;
    end + 1
}
