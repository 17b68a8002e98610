// What an item reports because of the blocks that it holds, before the walk of them.
ghost use Rattle.std.specs.Prelude.{◌≡◌, ◌+◌, ◌≤◌, eqb};
ghost use Rattle.leaves.specs.Sheet.Kinds.{blank_line};
ghost use Rattle.leaves.specs.Sheet.Trees.{trees};
ghost use Rattle.leaves.specs.Report.Listed.{path_of, Adds};
ghost use Rattle.blocks.specs.WalkAt.{is_last};
ghost use Rattle.blocks.specs.Item.{
  opens_with_paragraph,
  validate_blank_line,
  validate_item_blank_lines,
  validate_task_item,
};

use leaves::report::entries::Report;
use leaves::report::rules::Rule;
use leaves::sheet::kinds;
use leaves::sheet::records::Rec;
use leaves::sheet::trees::Records;

// Rules 51, 52 and 53 of one block. `last`: it is the last block of the list's last item.
fn validate_blank_line(report: &mut Report, r: Rec, tight: bool, first: bool, last: bool)
    ensures { Adds report.old report.new
        (validate_blank_line (path_of report.old) r.span (eqb r.kind blank_line) tight first last) }
{
    let blank = r.kind == kinds::BLANK_LINE;
    report.list_if(blank && tight, Rule::BlankLineInTightList, r.span);
    let opens = blank && !tight && first;
    report.list_if(opens, Rule::BlankLineFirst, r.span);
    let closes = blank && !tight && !first && last;
    report.list_if(closes, Rule::BlankLineLast, r.span);
}

// The blank lines of an item in a list of the level `outer`. A block is the last one of the list's last item where the
// record behind it, if there is one, is not deeper than `outer`.
pub(crate) fn validate_item_blank_lines(
    records: &Records,
    report: &mut Report,
    outer: u32,
    tight: bool,
)
    requires { outer ≤ report.old.level }
    ensures { Adds report.old report.new
        (validate_item_blank_lines (path_of report.old) tight
        (is_last records.now report.old.level outer) 0
        (trees records.now report.old.level)) }
{
    let level = report.level;
    let mut records = *records;
    // the index that goes into the path, counted by hand: the loop asks what stands behind each tree, which `roots`
    // does not tell
    let mut k: u32 = 0;
    while let Some(r) = records.next_under(level) {
        records.skip(r.level);
        let last = records.end(outer);
        report.enter(k, r.level);
        validate_blank_line(report, r, tight, k == 0, last);
        report.leave(level);
        k += 1;
    }
}

// Whether the first block that is not a definition is a paragraph with a child.
fn opens_with_paragraph(records: &Records, level: u32) -> bool
    ensures { result ≡ opens_with_paragraph (trees records.now level) }
{
    records
        .roots(level)
        .find(|t| t.root.kind != kinds::DEFINITION)
        .is_some_and(|t| t.root.kind == kinds::PARAGRAPH && !t.kids.end(t.root.level))
}

// Rule 14, where the item has a checkbox (A is not 0).
pub(crate) fn validate_task_item(records: &Records, report: &mut Report, r: Rec)
    ensures { Adds report.old report.new
        (validate_task_item (path_of report.old) r.span r.a (trees records.now report.old.level)) }
{
    if r.a == 0 {
        return;
    }
    let fault = !opens_with_paragraph(records, report.level);
    report.list_if(fault, Rule::TaskItem, r.span);
}
