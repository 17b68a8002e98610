// The rules, as documents 01 and 02 number them, each with its message.
ghost use Rattle.std.specs.Prelude.{◌≡◌};
ghost use Rattle.leaves.specs.Report.RuleNumbers.{rule_number};

// A rule, by what it asks.
#[derive(Clone, Copy, PartialEq, Eq, Debug)]
pub enum Rule {
    // "adjacent lists cannot use the same marker"
    AdjacentLists = 1,
    // "paragraph cannot be empty"
    EmptyParagraph = 2,
    // "footnote definition identifier cannot be empty"
    EmptyFootnoteDefinition = 3,
    // "a footnote definition cannot open or end with a blank line"
    BlankLineInFootnote = 4,
    // "HTML container opening tag name cannot be empty"
    EmptyOpeningName = 5,
    // "HTML container closing tag name cannot be empty"
    EmptyClosingName = 6,
    // "HTML container opening and closing tag names must match"
    TagNamesDiffer = 7,
    // "HTML container opening tag source cannot be empty"
    EmptyOpeningSource = 8,
    // "HTML container closing tag source cannot be empty"
    EmptyClosingSource = 9,
    // "heading depth must be in the range 1..=6"
    HeadingDepth = 10,
    // "alert title cannot be empty or start or end with a space or a tab"
    AlertTitle = 11,
    // "list must hold at least one item"
    EmptyList = 12,
    // "a loose list must hold two items or an item of two blocks"
    LooseList = 13,
    // "task list item must hold a non-empty paragraph after its leading definitions"
    TaskItem = 14,
    // "an indented code block must not be read as part of the block before it"
    IndentedCodeTaken = 15,
    // "table must contain at least a header row"
    TableWithoutRow = 16,
    // "table header row must contain at least one cell"
    TableWithoutCell = 17,
    // "table alignment count must match header width"
    AlignmentCount = 18,
    // "table row width must match header width"
    RowWidth = 19,
    // "a table cell cannot hold a line break"
    BreakInCell = 20,
    // "a value in a table cell cannot hold a `|` after an odd run of backslashes"
    PipeInCell = 21,
    // "a leaf directive label cannot hold a line break"
    BreakInLeafLabel = 22,
    // "a container directive label cannot hold a line break"
    BreakInContainerLabel = 23,
    // "definition identifier cannot be empty"
    BlankDefinition = 24,
    // "a bare destination cannot be empty"
    EmptyBareDestination = 25,
    // "code block info string cannot be empty"
    EmptyInfo = 26,
    // "indented code cannot be empty or start or end with a blank line"
    BlankEdgeInCode = 27,
    // "frontmatter cannot be inside a container"
    FrontmatterInside = 28,
    // "frontmatter value cannot hold its own fence line"
    FenceInFrontmatter = 29,
    // "hard line break cannot be the final inline of its container"
    FinalHardBreak = 30,
    // "text cannot hold a line ending; a line ends with a soft or hard break"
    LineEndingInText = 31,
    // "link reference identifier cannot be empty"
    EmptyLinkReference = 32,
    // "image reference identifier cannot be empty"
    EmptyImageReference = 33,
    // "footnote reference identifier cannot be empty"
    EmptyFootnoteReference = 34,
    // "inline footnote cannot be empty"
    EmptyInlineFootnote = 35,
    // "wikilink target cannot be empty"
    EmptyWikiLink = 36,
    // "a soft break or a spaces hard break cannot follow a line break"
    BreakAfterBreak = 37,
    // "adjacent strikethroughs cannot be written"
    AdjacentStrikethroughs = 38,
    // "emphasis-like inline container cannot have empty children"
    EmptyEmphasis = 39,
    // "emphasis-like inline content cannot start or end with whitespace"
    WhiteEmphasis = 40,
    // "emphasis-like span cannot hold only a span written with the same delimiter"
    JoinedEmphasis = 41,
    // "link text cannot hold a link"
    LinkInLink = 42,
    // "escaped value must be an ASCII punctuation character"
    EscapedValue = 43,
    // "inline code value cannot be empty"
    EmptyCode = 44,
    // "inline code value cannot hold a line ending"
    LineEndingInCode = 45,
    // "inline math value cannot be empty"
    EmptyMath = 46,
    // "dollar-fenced inline math must have a fence length of at least 1"
    MathWithoutFence = 47,
    // "code-form inline math value cannot contain a backtick followed by `$`"
    BacktickDollarInMath = 48,
    // "a bullet list item cannot hold a number"
    BulletNumber = 49,
    // "ordered list item number must be representable in at most 9 digits"
    LongNumber = 50,
    // "a tight list cannot hold a blank line"
    BlankLineInTightList = 51,
    // "a list item cannot open with a blank line"
    BlankLineFirst = 52,
    // "the last item of a list cannot end with a blank line"
    BlankLineLast = 53,
    // "directive name must be runs of ASCII letters joined by single `-`"
    DirectiveName = 54,
    // "directive attribute name must start with a letter, `_`, or `-`"
    AttributeName = 55,
    // "tag name must be a Unicode letter followed by letters, numbers, `/`, `_`, or `-`"
    TagName = 56,
}

impl Rule {
    // The rule's number in an entry.
    pub fn number(self) -> u32
        ensures { result ≡ rule_number self }
    {
        self as u32
    }
}
