// Kinds of records, as document 01 numbers them. They are numbers and no enum: the C interface gives a record's kind as
// a number, a sheet may hold any, and the definitions of specs/ ask a record for that number. Every `match` over kinds
// has an arm for the rest, so an enum would make none of them safer.
ghost use Rattle.std.specs.Prelude.{◌≡◌};
ghost use Rattle.leaves.specs.Sheet.Kinds.{is_block, is_inline, is_kind};

// No kind: what stands for that of a record where there is none.
pub const NO_KIND: u32 = 0;

pub const PARAGRAPH: u32 = 1;

pub const HEADING: u32 = 2;

pub const THEMATIC_BREAK: u32 = 3;

pub const BLOCK_QUOTE: u32 = 4;

pub const ALERT: u32 = 5;

pub const LIST: u32 = 6;

pub const CODE_BLOCK: u32 = 7;

pub const HTML_BLOCK: u32 = 8;

pub const HTML_CONTAINER: u32 = 9;

pub const DEFINITION: u32 = 10;

pub const FOOTNOTE_DEFINITION: u32 = 11;

pub const TABLE: u32 = 12;

pub const MATH_BLOCK: u32 = 13;

pub const FRONTMATTER: u32 = 14;

pub const LEAF_DIRECTIVE: u32 = 15;

pub const CONTAINER_DIRECTIVE: u32 = 16;

pub const BLANK_LINE: u32 = 17;

pub const ITEM: u32 = 20;

pub const ROW: u32 = 21;

pub const CELL: u32 = 22;

pub const HTML_TAG: u32 = 23;

pub const ATTRIBUTE: u32 = 24;

pub const TEXT: u32 = 31;

pub const ESCAPE: u32 = 32;

pub const CHARACTER_REFERENCE: u32 = 33;

pub const EMPHASIS: u32 = 34;

pub const STRONG: u32 = 35;

pub const DELETE: u32 = 36;

pub const MARK: u32 = 37;

pub const SHORTCODE: u32 = 38;

pub const CODE: u32 = 39;

pub const LINK: u32 = 40;

pub const AUTOLINK: u32 = 41;

pub const IMAGE: u32 = 42;

pub const LINK_REFERENCE: u32 = 43;

pub const IMAGE_REFERENCE: u32 = 44;

pub const HTML: u32 = 45;

pub const SOFT_BREAK: u32 = 46;

pub const LINE_BREAK: u32 = 47;

pub const MATH: u32 = 48;

pub const FOOTNOTE_REFERENCE: u32 = 49;

pub const INLINE_FOOTNOTE: u32 = 50;

pub const WIKI_LINK: u32 = 51;

pub const TEXT_DIRECTIVE: u32 = 52;

pub const TAG: u32 = 53;

pub fn is_block(kind: u32) -> bool
    ensures { result ≡ is_block kind }
{
    matches!(kind, PARAGRAPH..=BLANK_LINE)
}

pub fn is_inline(kind: u32) -> bool
    ensures { result ≡ is_inline kind }
{
    matches!(kind, TEXT..=TAG)
}

// Whether document 01 lists the kind.
pub(crate) fn is_kind(kind: u32) -> bool
    ensures { result ≡ is_kind kind }
{
    is_block(kind) || matches!(kind, ITEM..=ATTRIBUTE) || is_inline(kind)
}
