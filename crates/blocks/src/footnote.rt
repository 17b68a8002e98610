// A footnote definition, up to the walk of its blocks.
ghost use Rattle.leaves.specs.Sheet.Trees.{trees};
ghost use Rattle.leaves.specs.Report.Listed.{path_of, Adds};
ghost use Rattle.blocks.specs.Footnote.{blank_line_at, validate_footnote_definition};

use leaves::report::entries::Report;
use leaves::report::rules::Rule;
use leaves::sheet::empty::is_empty;
use leaves::sheet::kinds;
use leaves::sheet::records::Rec;
use leaves::sheet::trees::Records;

// Rule 4: neither the first nor the last block is a blank line. It reports one at most.
fn blank_line_at(records: &Records, report: &mut Report)
    ensures { Adds report.old report.new
        (blank_line_at (path_of report.old) 0 (trees records.now report.old.level)) }
{
    let level = report.level;
    let mut records = *records;
    // the index that goes into the path, counted by hand: with `roots` the loop would have to enumerate and to look
    // ahead, to know whether a tree stands behind, which is no plainer
    let mut k: u32 = 0;
    while let Some(r) = records.next_under(level) {
        records.skip(r.level);
        if r.kind == kinds::BLANK_LINE && (k == 0 || records.end(level)) {
            report.enter(k, r.level);
            report.list_if(true, Rule::BlankLineInFootnote, r.span);
            report.leave(level);
            return;
        }
        k += 1;
    }
}

// Rule 3, then 4.
pub(crate) fn validate_footnote_definition(records: &Records, report: &mut Report, r: Rec)
    ensures { Adds report.old report.new
        (validate_footnote_definition (path_of report.old) r.span r.first
        (trees records.now report.old.level)) }
{
    report.list_if(is_empty(r.first), Rule::EmptyFootnoteDefinition, r.span);
    blank_line_at(records, report);
}
