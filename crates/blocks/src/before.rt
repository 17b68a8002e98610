// What a block reports because of the block before it, and which block stands before the next one.
ghost use Rattle.std.specs.Prelude.{◌≡◌, unwrap_or};
ghost use Rattle.leaves.specs.Report.Listed.{path_of, Adds};
ghost use Rattle.blocks.specs.Before.{takes_indented_code, no_block, validate_taken_block, before_next};

use leaves::report::entries::Report;
use leaves::report::rules::Rule;
use leaves::sheet::kinds;
use leaves::sheet::records::Rec;
use leaves::text::marker::written_marker;

// What the rules ask of the block before.
#[derive(Clone, Copy, PartialEq, Eq, Debug)]
pub struct Before {
    pub kind: u32,
    pub a: u32,
    pub b: u32,
}

// Indented code and footnote definitions take the lines of indented code that follows them.
#[tactic(auto, unfolding(crate::specs::Before::takes_indented_code))]
fn takes_indented_code(kind: u32, a: u32) -> bool
    ensures { result ≡ takes_indented_code kind a }
{
    (kind == kinds::CODE_BLOCK && a == 1) || kind == kinds::FOOTNOTE_DEFINITION
}

// Rule 1: two lists of one marker would read as one. Rule 15: indented code follows no block that takes its lines.
pub(crate) fn validate_taken_block(report: &mut Report, before: Option<Before>, r: Rec)
    ensures { Adds report.old report.new
        (validate_taken_block (path_of report.old) r.span (unwrap_or before no_block) r.kind r.a r.b) }
{
    let Some(before) = before else {
        return;
    };
    let lists = before.kind == kinds::LIST
        && r.kind == kinds::LIST
        && written_marker(before.a, before.b) == written_marker(r.a, r.b);
    report.list_if(lists, Rule::AdjacentLists, r.span);
    let taken = r.kind == kinds::CODE_BLOCK
        && r.a == 1
        && takes_indented_code(before.kind, before.a);
    report.list_if(taken, Rule::IndentedCodeTaken, r.span);
}

// The block before the next one. Blank lines do not count. Only this function makes a `Before` of a record, so there is
// no `From<Rec>`.
#[tactic(auto, unfolding(crate::specs::Before::before_next))]
pub(crate) fn before_next(before: Option<Before>, r: Rec) -> Option<Before>
    ensures { unwrap_or result no_block ≡ before_next (unwrap_or before no_block) r.kind r.a r.b }
{
    if r.kind == kinds::BLANK_LINE {
        return before;
    }
    Some(Before {
        kind: r.kind,
        a: r.a,
        b: r.b,
    })
}
