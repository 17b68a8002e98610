// Texts of no bytes.
ghost use Rattle.std.specs.Prelude.{◌≡◌};
ghost use Rattle.leaves.specs.Sheet.Empty.{is_empty, is_empty_text};

use crate::sheet::kinds;
use crate::sheet::records::{Rec, Text};

pub fn is_empty(t: Text) -> bool
    ensures { result ≡ is_empty t }
{
    t.len == 0
}

pub fn is_empty_text(r: Rec) -> bool
    ensures { result ≡ is_empty_text r }
{
    r.kind == kinds::TEXT && is_empty(r.first)
}
