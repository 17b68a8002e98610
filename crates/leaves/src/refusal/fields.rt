// The fields of a record.
ghost use Rattle.std.specs.Prelude.{◌≡◌, ◌&&◌, [], ◌∷◌, eqb};
ghost use Rattle.leaves.specs.Sheet.Kinds.{
  among,
  code_block,
  definition,
  footnote_definition,
  frontmatter,
  leaf_directive,
  container_directive,
  html_tag,
  attribute,
  text,
  code,
  link,
  autolink,
  image,
  link_reference,
  image_reference,
  html,
  math,
  footnote_reference,
  wiki_link,
  text_directive,
  tag,
};
ghost use Rattle.leaves.specs.Refusal.Fields.{most_a, most_b, most_c, has_first, has_second};
ghost use Rattle.leaves.specs.Refusal.Fields.{bad_text, bad_span, is_surrogate, bad_number, bad_field};

use crate::sheet::kinds;
use crate::sheet::records::{Rec, Span, Text};

// The most that A may be. It is 0 where A is not used: "unused word not 0" is refused, so 0 is a bound like the others.
#[tactic(auto, unfolding(crate::specs::Refusal::Fields::most_a))]
fn most_a(kind: u32) -> u32
    ensures { result ≡ most_a kind }
{
    match kind {
        kinds::HEADING => 255,
        kinds::ALERT
        | kinds::LIST
        | kinds::CODE_BLOCK
        | kinds::HTML_CONTAINER
        | kinds::FRONTMATTER
        | kinds::EMPHASIS
        | kinds::STRONG
        | kinds::LINE_BREAK
        | kinds::MATH => 1,
        kinds::DEFINITION | kinds::ITEM | kinds::LINK | kinds::IMAGE => 2,
        kinds::TABLE => 0xFFFF_FFFF,
        kinds::ESCAPE => 0x10FFFF,
        _ => 0,
    }
}

#[tactic(auto, unfolding(crate::specs::Refusal::Fields::most_b))]
fn most_b(kind: u32, a: u32) -> u32
    ensures { result ≡ most_b kind a }
{
    match kind {
        kinds::LIST => 4,
        kinds::CODE_BLOCK | kinds::ITEM => 1,
        kinds::MATH if a == 0 => 255,
        _ => 0,
    }
}

#[tactic(auto, unfolding(crate::specs::Refusal::Fields::most_c))]
fn most_c(kind: u32, b: u32) -> u32
    ensures { result ≡ most_c kind b }
{
    match kind {
        kinds::LIST => 1,
        kinds::ITEM if b == 1 => 0xFFFF_FFFF,
        _ => 0,
    }
}

fn names_value(kind: u32) -> bool
    ensures { result ≡ among kind (code_block ∷ frontmatter ∷ text ∷ code ∷ html ∷ math ∷ []) }
{
    matches!(
        kind,
        kinds::CODE_BLOCK
            | kinds::FRONTMATTER
            | kinds::TEXT
            | kinds::CODE
            | kinds::HTML
            | kinds::MATH
    )
}

fn names_identifier(kind: u32) -> bool
    ensures { result ≡ among kind
        (definition ∷ footnote_definition ∷ link_reference ∷ image_reference ∷ footnote_reference ∷ []) }
{
    matches!(
        kind,
        kinds::DEFINITION
            | kinds::FOOTNOTE_DEFINITION
            | kinds::LINK_REFERENCE
            | kinds::IMAGE_REFERENCE
            | kinds::FOOTNOTE_REFERENCE
    )
}

fn names_name(kind: u32) -> bool
    ensures { result ≡ among kind
        (leaf_directive ∷ container_directive ∷ text_directive ∷ html_tag ∷ attribute ∷ tag ∷ []) }
{
    matches!(
        kind,
        kinds::LEAF_DIRECTIVE
            | kinds::CONTAINER_DIRECTIVE
            | kinds::TEXT_DIRECTIVE
            | kinds::HTML_TAG
            | kinds::ATTRIBUTE
            | kinds::TAG
    )
}

fn names_link(kind: u32) -> bool
    ensures { result ≡ among kind (link ∷ image ∷ autolink ∷ wiki_link ∷ []) }
{
    matches!(
        kind,
        kinds::LINK | kinds::IMAGE | kinds::AUTOLINK | kinds::WIKI_LINK
    )
}

// Whether the record has a first text; an alert has one where its A is 1.
#[tactic(auto, unfolding(crate::specs::Refusal::Fields::has_first))]
fn has_first(kind: u32, a: u32) -> bool
    ensures { result ≡ has_first kind a }
{
    (kind == kinds::ALERT && a == 1)
        || names_value(kind)
        || names_identifier(kind)
        || names_name(kind)
        || names_link(kind)
}

fn names_second(kind: u32) -> bool
    ensures { result ≡ among kind
        (definition ∷ html_tag ∷ link_reference ∷ image_reference ∷ footnote_reference ∷ wiki_link ∷ []) }
{
    matches!(
        kind,
        kinds::DEFINITION
            | kinds::HTML_TAG
            | kinds::LINK_REFERENCE
            | kinds::IMAGE_REFERENCE
            | kinds::FOOTNOTE_REFERENCE
            | kinds::WIKI_LINK
    )
}

// Whether the record has a second text; a code block has one where its B is 1.
#[tactic(auto, unfolding(crate::specs::Refusal::Fields::has_second))]
fn has_second(kind: u32, b: u32) -> bool
    ensures { result ≡ has_second kind b }
{
    (kind == kinds::CODE_BLOCK && b == 1) || names_second(kind)
}

fn is_absent(t: Text) -> bool
    ensures { result ≡ (eqb t.start 0 && eqb t.len 0) }
{
    t.start == 0 && t.len == 0
}

#[tactic(auto, unfolding(crate::specs::Refusal::Fields::bad_span))]
fn bad_span(kind: u32, s: Span) -> bool
    ensures { result ≡ bad_span kind s }
{
    match s.flag {
        0 => s.start != 0 || s.end != 0,
        1 => kind == kinds::ATTRIBUTE,
        _ => true,
    }
}

#[tactic(auto, unfolding(crate::specs::Refusal::Fields::is_surrogate))]
fn is_surrogate(kind: u32, a: u32) -> bool
    ensures { result ≡ is_surrogate kind a }
{
    kind == kinds::ESCAPE && matches!(a, 0xD800..=0xDFFF)
}

// Three zeros are in range for every kind, so the kind is tested only for other numbers.
#[tactic(auto, using(crate::proofs::refusal::ZeroFieldLaws::no_numbers), unfolding(crate::specs::Refusal::Fields::bad_number))]
fn bad_number(r: Rec) -> bool
    ensures { result ≡ bad_number r }
{
    if r.a == 0 && r.b == 0 && r.c == 0 {
        return false;
    }
    most_a(r.kind) < r.a
        || most_b(r.kind, r.a) < r.b
        || most_c(r.kind, r.b) < r.c
        || is_surrogate(r.kind, r.a)
}

// Whether a value is out of range or an unused word is not 0. Every kind may have the text 0, 0, so the kind is tested
// only for other texts.
#[tactic(auto, unfolding(crate::specs::Refusal::Fields::bad_field, crate::specs::Refusal::Fields::bad_text))]
pub(crate) fn bad_field(r: Rec) -> bool
    ensures { result ≡ bad_field r }
{
    bad_number(r)
        || bad_span(r.kind, r.span)
        || (!is_absent(r.first) && !has_first(r.kind, r.a))
        || (!is_absent(r.second) && !has_second(r.kind, r.b))
}
