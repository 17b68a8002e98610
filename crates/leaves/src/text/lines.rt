// Lines and line endings.
ghost use Rattle.std.specs.Prelude.{◌≡◌, ◌+◌, ◌<◌, length, get_or, drop};
ghost use Rattle.leaves.specs.Text.Lines.{holds_line_ending, is_cr_of_crlf};

use crate::text::bytes::{CR, LF};
use crate::text::chunk::Neither;
use crate::text::{bytes, chunk};

pub fn holds_line_ending(s: &[u8]) -> bool
    ensures { result ≡ holds_line_ending s.now }
{
    chunk::skip_passing(s, &Neither { a: LF, b: CR })
        .iter()
        .any(|b| bytes::is_line_ending_byte(*b))
}

// Whether the byte at `i` is a CR with its LF after it.
#[tactic(auto, using(crate::proofs::text::LineLaws::crlf_other, crate::proofs::text::LineLaws::crlf_short, crate::proofs::text::LineLaws::crlf_long))]
pub(crate) fn is_cr_of_crlf(s: &[u8], i: usize) -> bool
    requires { i < length s.now }
    ensures { result ≡ is_cr_of_crlf (get_or s.now i 0) (drop (i + 1) s.now) }
{
    s[i] == CR && i + 1 < s.len() && s[i + 1] == LF
}
