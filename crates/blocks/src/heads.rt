// What a block reports by its own record, and a heading's inlines.
ghost use Rattle.leaves.specs.Sheet.Trees.{trees};
ghost use Rattle.leaves.specs.Report.Listed.{path_of, Adds};
ghost use Rattle.blocks.specs.Heads.{validate_heading, validate_alert, validate_code_block, validate_definition};

use inlines::nodes::validate_inlines;
use inlines::single;
use leaves::report::entries::Report;
use leaves::report::rules::Rule;
use leaves::sheet::empty::is_empty;
use leaves::sheet::records::Rec;
use leaves::sheet::texts::text_of;
use leaves::sheet::trees::Records;
use leaves::text::edges::has_blank_edge_line;
use leaves::text::name::is_blank_identifier;
use leaves::text::title::is_alert_title;

// Rule 10: a heading's depth is from 1 to 6. Then its inlines.
pub(crate) fn validate_heading(records: &Records, report: &mut Report, r: Rec)
    ensures { Adds report.old report.new
        (validate_heading records.now.bytes.now (path_of report.old) r.span r.a
        (trees records.now report.old.level)) }
{
    let level = report.level;
    let mut inlines = *records;
    let fault = r.a == 0 || 6 < r.a;
    report.list_if(fault, Rule::HeadingDepth, r.span);
    validate_inlines(&mut inlines, report, level);
}

// Rule 11, where there is a title (A is 1).
#[tactic(auto, unfolding(crate::specs::Heads::validate_alert))]
pub(crate) fn validate_alert(bytes: &[u8], report: &mut Report, r: Rec)
    ensures { Adds report.old report.new
        (validate_alert bytes.now (path_of report.old) r.span r.a r.first) }
{
    let fault = r.a == 1 && !is_alert_title(text_of(bytes, r.first));
    report.list_if(fault, Rule::AlertTitle, r.span);
}

// Rule 26, where there is an info string (B is 1), and 27, for indented code (A is 1).
pub(crate) fn validate_code_block(bytes: &[u8], report: &mut Report, r: Rec)
    ensures { Adds report.old report.new
        (validate_code_block bytes.now (path_of report.old) r.span r.a r.b r.first r.second) }
{
    let empty = r.b == 1 && is_empty(r.second);
    report.list_if(empty, Rule::EmptyInfo, r.span);
    let blank = r.a == 1 && has_blank_edge_line(text_of(bytes, r.first));
    report.list_if(blank, Rule::BlankEdgeInCode, r.span);
}

// Rule 24, then 25.
pub(crate) fn validate_definition(bytes: &[u8], report: &mut Report, r: Rec)
    ensures { Adds report.old report.new
        (validate_definition bytes.now (path_of report.old) r.span r.a r.first r.second) }
{
    let blank = is_blank_identifier(text_of(bytes, r.first));
    report.list_if(blank, Rule::BlankDefinition, r.span);
    single::validate_destination(report, r.span, r.a, r.second);
}
