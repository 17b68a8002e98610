// Whether the first or the last line is blank.
ghost use Rattle.std.specs.Prelude.{◌≡◌, true};
ghost use Rattle.leaves.specs.Text.Edges.{has_blank_edge_line};
ghost use Rattle.leaves.specs.Text.EdgeScans.{last_blank, Led, Solid};

use crate::text::bytes;
use crate::text::lines::is_cr_of_crlf;

// The place of the first byte that is no space and no tab; the length where there is none.
fn leading_blanks(s: &[u8]) -> usize
    ensures { Led s.now result }
{
    s.iter()
        .position(|b| !bytes::is_blank_byte(*b))
        .unwrap_or(s.len())
}

// Whether the last line is blank.
// `blank`: the line being read is blank so far. `last`: the last line that has a byte or an ending is blank.
fn last_line_is_blank(s: &[u8]) -> bool
    ensures { result ≡ last_blank true true s.now }
{
    let mut last = true;
    let mut blank = true;
    for (i, &b) in s.iter().enumerate() {
        if is_cr_of_crlf(s, i) {
            continue;
        }
        if bytes::is_line_ending_byte(b) {
            last = blank;
            blank = true;
        } else {
            blank &= bytes::is_blank_byte(b);
            last = blank;
        }
    }
    last
}

// The place of the last byte that is neither blank nor a line ending; 0 where there is none. The last line is blank
// exactly where it is blank when read from there on. (`is_trimmed_byte` of `name` is the same test, of another rule.)
fn last_solid(s: &[u8]) -> usize
    ensures { Solid s.now result }
{
    s.iter()
        .rposition(|b| !(bytes::is_blank_byte(*b) || bytes::is_line_ending_byte(*b)))
        .unwrap_or(0)
}

// Whether the first or the last line is blank; a text with no line counts as one blank line. The lines between are
// not read.
pub fn has_blank_edge_line(s: &[u8]) -> bool
    ensures { result ≡ has_blank_edge_line s.now }
{
    let rest = &s[leading_blanks(s)..];
    match rest {
        [] => true,
        [first, ..] => bytes::is_line_ending_byte(*first)
            || last_line_is_blank(&rest[last_solid(rest)..]),
    }
}
