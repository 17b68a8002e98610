// An alert's title.
ghost use Rattle.std.specs.Prelude.{◌≡◌};
ghost use Rattle.leaves.specs.Text.Title.{is_alert_title};

use crate::text::bytes;

// Whether the title has a byte, and no space or tab at its ends.
#[tactic(auto, using(crate::proofs::text::TitleLaws::title_none, crate::proofs::text::TitleLaws::title_some))]
pub fn is_alert_title(s: &[u8]) -> bool
    ensures { result ≡ is_alert_title s.now }
{
    !s.is_empty() && !bytes::is_blank_byte(s[0]) && !bytes::is_blank_byte(s[s.len() - 1])
}
