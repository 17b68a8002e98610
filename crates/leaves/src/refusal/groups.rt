// The groups of kinds: as parents, and as children. They are numbers, as in the definitions, since they are the rows
// and columns of a table. Only the three that the code asks for have names here.
ghost use Rattle.std.specs.Prelude.{◌≡◌, true};
ghost use Rattle.leaves.specs.Sheet.Kinds.{is_kind};
ghost use Rattle.leaves.specs.Refusal.Groups.{parent_group, child_group};
ghost use Rattle.leaves.specs.Refusal.KindGroups.{kind_groups};

use crate::sheet::kinds;

pub(crate) const PARENT_OF_BLOCKS: u32 = 0;

pub(crate) const PARENT_OF_TAGS_AND_BLOCKS: u32 = 7;

pub(crate) const PARENT_OF_TAGS_AND_INLINES: u32 = 8;

// The two groups of each kind, from kind 0 on: as a parent whose A is 0, and as a child.
const GROUPS: [[u32; 2]; 54] = [
    [9, 7], // 0: no kind
    [4, 0], // paragraph
    [4, 0], // heading
    [9, 0], // thematic break
    [0, 0], // block quote
    [0, 0], // alert
    [1, 0], // list
    [9, 0], // code block
    [9, 0], // HTML block
    [7, 0], // HTML container
    [9, 0], // definition
    [0, 0], // footnote definition
    [2, 0], // table
    [9, 0], // math block
    [9, 0], // frontmatter
    [5, 0], // leaf directive
    [6, 0], // container directive
    [9, 0], // blank line
    [9, 7], // 18: no kind
    [9, 7], // 19: no kind
    [0, 1], // item
    [3, 2], // row
    [4, 3], // cell
    [9, 4], // HTML tag
    [9, 5], // attribute
    [9, 7], // 25: no kind
    [9, 7], // 26: no kind
    [9, 7], // 27: no kind
    [9, 7], // 28: no kind
    [9, 7], // 29: no kind
    [9, 7], // 30: no kind
    [9, 6], // text
    [9, 6], // escape
    [9, 6], // character reference
    [4, 6], // emphasis
    [4, 6], // strong
    [4, 6], // delete
    [4, 6], // mark
    [9, 6], // shortcode
    [9, 6], // code
    [4, 6], // link
    [9, 6], // autolink
    [4, 6], // image
    [4, 6], // link reference
    [4, 6], // image reference
    [9, 6], // HTML inline
    [9, 6], // soft break
    [9, 6], // line break
    [9, 6], // math
    [9, 6], // footnote reference
    [4, 6], // inline footnote
    [9, 6], // wikilink
    [5, 6], // text directive
    [9, 6], // tag
];

// The table of groups. A constant array is copied at each mention, so `Tables::new` makes it once, and the functions
// that read it are lent it. They ask that their parameter `groups` is this table.
#[tactic(auto, unfolding(crate::specs::Refusal::KindGroups::kind_groups))]
pub(crate) fn groups() -> [[u32; 2]; 54]
    ensures { result ≡ kind_groups }
{
    GROUPS
}

// What a record of the kind may hold. An HTML container holds inlines where its A is not 0.
pub(crate) fn parent_group(groups: &[[u32; 2]; 54], kind: u32, a: u32) -> u32
    requires { (groups.now ≡ kind_groups) × (is_kind kind ≡ true) }
    ensures { result ≡ parent_group kind a }
{
    if kind == kinds::HTML_CONTAINER && a != 0 {
        PARENT_OF_TAGS_AND_INLINES
    } else {
        groups[kind as usize][0]
    }
}

#[tactic(auto, using(crate::proofs::refusal::GroupLaws::group_laws))]
pub(crate) fn child_group(groups: &[[u32; 2]; 54], kind: u32) -> u32
    requires { (groups.now ≡ kind_groups) × (is_kind kind ≡ true) }
    ensures { result ≡ child_group kind }
{
    groups[kind as usize][1]
}
