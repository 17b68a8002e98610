// Pipes in the values of a table cell.
ghost use Rattle.std.specs.Prelude.{◌≡◌};
ghost use Rattle.leaves.specs.Text.Pipe.{has_odd_escaped_pipe};

use crate::text::bytes::{BACKSLASH, PIPE};
use crate::text::chunk;
use crate::text::chunk::{CHUNK, Other};

// Whether a `|` stands right after an odd run of backslashes. `odd`: the run before the byte being read is odd.
pub fn has_odd_escaped_pipe(s: &[u8]) -> bool
    ensures { result ≡ has_odd_escaped_pipe s.now }
{
    let plain = Other { than: BACKSLASH };
    let mut odd = false;
    let mut rest = chunk::skip_passing(s, &plain);
    // not by an iterator over bytes: a turn may pass over many. That is tried once in sixteen bytes, and not at each
    // byte
    while let [b, behind @ ..] = rest {
        if odd && *b == PIPE {
            return true;
        }
        odd = !odd && *b == BACKSLASH;
        rest = behind;
        if !odd && rest.len() % CHUNK == 0 {
            rest = chunk::skip_passing(rest, &plain);
        }
    }
    false
}
