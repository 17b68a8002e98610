// What the walks ask of the own values of one record.
ghost use Rattle.std.specs.Prelude.{◌≡◌};
ghost use Rattle.inlines.specs.Values.{starts_white, ends_white, is_unwritable, is_bad_attribute};

use leaves::sheet::classes::{is_break, is_plain_break, names_label, names_own_value};
use leaves::sheet::kinds;
use leaves::sheet::records::Rec;
use leaves::sheet::texts::text_of;
use leaves::text::name::is_attribute_name;
use leaves::text::pipe::has_odd_escaped_pipe;
use leaves::text::white;

// Whether an inline starts with white space.
#[tactic(auto, unfolding(crate::specs::Values::starts_white))]
pub(crate) fn starts_white(bytes: &[u8], r: Rec) -> bool
    ensures { result ≡ starts_white bytes.now r }
{
    (r.kind == kinds::TEXT && white::starts_with_white(text_of(bytes, r.first)))
        || is_plain_break(r.kind, r.a)
}

// Whether an inline ends with white space.
#[tactic(auto, unfolding(crate::specs::Values::ends_white))]
pub(crate) fn ends_white(bytes: &[u8], r: Rec) -> bool
    ensures { result ≡ ends_white bytes.now r }
{
    (r.kind == kinds::TEXT && white::ends_with_white(text_of(bytes, r.first))) || is_break(r.kind)
}

// Whether the inline has a value that no cell can hold: one with a `|` after an odd run of backslashes.
#[tactic(auto, unfolding(crate::specs::Values::is_unwritable))]
pub(crate) fn is_unwritable(bytes: &[u8], r: Rec) -> bool
    ensures { result ≡ is_unwritable bytes.now r }
{
    let wiki = r.kind == kinds::WIKI_LINK;
    ((names_own_value(r.kind) || wiki) && has_odd_escaped_pipe(text_of(bytes, r.first)))
        || ((names_label(r.kind) || wiki) && has_odd_escaped_pipe(text_of(bytes, r.second)))
}

// Whether a record is an attribute whose name is not an attribute name.
#[tactic(auto, unfolding(crate::specs::Values::is_bad_attribute))]
pub(crate) fn is_bad_attribute(bytes: &[u8], r: Rec) -> bool
    ensures { result ≡ is_bad_attribute bytes.now r }
{
    r.kind == kinds::ATTRIBUTE && !is_attribute_name(text_of(bytes, r.first))
}
