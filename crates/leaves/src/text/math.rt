// Inline math in its code form.
ghost use Rattle.std.specs.Prelude.{◌≡◌};
ghost use Rattle.leaves.specs.Text.Math.{holds_backtick_dollar};

use crate::text::bytes::{BACKTICK, DOLLAR};
use crate::text::chunk;
use crate::text::chunk::Other;

// Whether a `$` stands right after a backtick.
pub fn holds_backtick_dollar(s: &[u8]) -> bool
    ensures { result ≡ holds_backtick_dollar s.now }
{
    let plain = Other { than: BACKTICK };
    let mut rest = chunk::skip_passing(s, &plain);
    // not by `windows`: a turn may pass over many bytes
    while let [first, second, ..] = rest {
        if *first == BACKTICK && *second == DOLLAR {
            return true;
        }
        rest = &rest[1..];
        if *first == BACKTICK {
            rest = chunk::skip_passing(rest, &plain);
        }
    }
    false
}
