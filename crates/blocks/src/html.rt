// The tags of an HTML container, and its inlines.
ghost use Rattle.leaves.specs.Sheet.Trees.{trees};
ghost use Rattle.leaves.specs.Report.Listed.{path_of, Adds};
ghost use Rattle.blocks.specs.Html.{validate_tag_pair, validate_tags, validate_html_container};

use inlines::nodes::validate_inlines;
use leaves::report::entries::Report;
use leaves::report::rules::Rule;
use leaves::sheet::empty::is_empty;
use leaves::sheet::records::{Rec, Span};
use leaves::sheet::texts::text_of;
use leaves::sheet::trees::Records;
use leaves::text::same::same_bytes;

// Rules 5 to 9: no tag has an empty name or source, and both have the same name. `span` is the container's.
fn validate_tag_pair(bytes: &[u8], report: &mut Report, span: Span, opening: Rec, closing: Rec)
    ensures { Adds report.old report.new
        (validate_tag_pair bytes.now (path_of report.old) span opening closing) }
{
    report.list_if(
        is_empty(opening.first),
        Rule::EmptyOpeningName,
        opening.span,
    );
    report.list_if(
        is_empty(closing.first),
        Rule::EmptyClosingName,
        closing.span,
    );
    let same = same_bytes(text_of(bytes, opening.first), text_of(bytes, closing.first));
    report.list_if(!same, Rule::TagNamesDiffer, span);
    report.list_if(
        is_empty(opening.second),
        Rule::EmptyOpeningSource,
        opening.span,
    );
    report.list_if(
        is_empty(closing.second),
        Rule::EmptyClosingSource,
        closing.span,
    );
}

// The rules of a container's tags, which are its first two children.
fn validate_tags(records: &Records, report: &mut Report, span: Span)
    ensures { Adds report.old report.new
        (validate_tags records.now.bytes.now (path_of report.old) span
        (trees records.now report.old.level)) }
{
    let mut tags = records.roots(report.level);
    let Some(opening) = tags.next() else {
        return;
    };
    let Some(closing) = tags.next() else {
        return;
    };
    validate_tag_pair(records.bytes, report, span, opening.root, closing.root);
}

// The tags, and the inlines where the container holds inlines.
pub(crate) fn validate_html_container(records: &Records, report: &mut Report, r: Rec)
    ensures { Adds report.old report.new
        (validate_html_container records.now.bytes.now (path_of report.old) r.span r.a
        (trees records.now report.old.level)) }
{
    let level = report.level;
    let mut inlines = *records;
    validate_tags(records, report, r.span);
    if r.a == 0 {
        return;
    }
    validate_inlines(&mut inlines, report, level);
}
