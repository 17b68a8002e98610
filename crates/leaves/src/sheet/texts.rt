// The texts that a record names.
ghost use Rattle.std.specs.Prelude.{◌≡◌};
ghost use Rattle.leaves.specs.Sheet.Texts.{text_of, text_outside, text_ill_formed};

use crate::sheet::records::Text;
use crate::text::part::part;
use crate::text::utf8::is_utf8;

// The part of the sheet's text that a record names.
pub fn text_of(bytes: &[u8], t: Text) -> &[u8]
    ensures { result.now ≡ text_of bytes.now t }
{
    part(bytes, t.start as usize, t.len as usize)
}

pub(crate) fn text_outside(bytes: &[u8], t: Text) -> bool
    ensures { result ≡ text_outside bytes.now t }
{
    let start = t.start as usize;
    let len = t.len as usize;
    bytes.len() < start + len
}

// Most texts have no bytes, and such a text is well-formed.
#[tactic(auto, using(crate::proofs::sheet::TextLaws::no_bytes), unfolding(crate::specs::Sheet::Texts::text_ill_formed))]
pub(crate) fn text_ill_formed(bytes: &[u8], t: Text) -> bool
    ensures { result ≡ text_ill_formed bytes.now t }
{
    t.len != 0 && !is_utf8(text_of(bytes, t))
}
