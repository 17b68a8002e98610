// Classes of inlines, by kind and, for breaks and emphasis, by A.
ghost use Rattle.std.specs.Prelude.{◌≡◌};
ghost use Rattle.leaves.specs.Sheet.Classes.{is_break, is_plain_break, is_emphasis_container, is_link};
ghost use Rattle.leaves.specs.Sheet.Classes.{names_own_value, names_label, is_joined};

use crate::sheet::kinds;

pub fn is_break(kind: u32) -> bool
    ensures { result ≡ is_break kind }
{
    matches!(kind, kinds::SOFT_BREAK | kinds::LINE_BREAK)
}

// A soft break, or a hard break written as spaces.
pub fn is_plain_break(kind: u32, a: u32) -> bool
    ensures { result ≡ is_plain_break kind a }
{
    kind == kinds::SOFT_BREAK || (kind == kinds::LINE_BREAK && a == 1)
}

pub fn is_emphasis_container(kind: u32) -> bool
    ensures { result ≡ is_emphasis_container kind }
{
    matches!(
        kind,
        kinds::EMPHASIS | kinds::STRONG | kinds::DELETE | kinds::MARK
    )
}

// A link, autolink, link reference or wikilink.
pub fn is_link(kind: u32) -> bool
    ensures { result ≡ is_link kind }
{
    matches!(
        kind,
        kinds::LINK | kinds::AUTOLINK | kinds::LINK_REFERENCE | kinds::WIKI_LINK
    )
}

// Code, math, raw HTML and autolinks write their first text as it is.
pub fn names_own_value(kind: u32) -> bool
    ensures { result ≡ names_own_value kind }
{
    matches!(
        kind,
        kinds::CODE | kinds::MATH | kinds::HTML | kinds::AUTOLINK
    )
}

// References write their label, the second text.
pub fn names_label(kind: u32) -> bool
    ensures { result ≡ names_label kind }
{
    matches!(
        kind,
        kinds::LINK_REFERENCE | kinds::IMAGE_REFERENCE | kinds::FOOTNOTE_REFERENCE
    )
}

// Whether an only child is written with the same delimiter as its parent.
pub fn is_joined(outer: u32, outer_a: u32, inner: u32, inner_a: u32) -> bool
    ensures { result ≡ is_joined outer outer_a inner inner_a }
{
    match (outer, inner) {
        (kinds::EMPHASIS | kinds::STRONG, kinds::EMPHASIS) => outer_a == inner_a,
        (kinds::DELETE, kinds::DELETE) | (kinds::MARK, kinds::MARK) => true,
        _ => false,
    }
}
