// What one inline reports of itself, by its kind.
ghost use Rattle.leaves.specs.Sheet.Trees.{trees};
ghost use Rattle.leaves.specs.Report.Entries.{list_if, ◌⊕◌};
ghost use Rattle.leaves.specs.Report.Rules;
ghost use Rattle.leaves.specs.Report.Listed.{path_of, Adds};
ghost use Rattle.inlines.specs.Content.{no_inline};
ghost use Rattle.inlines.specs.Single.{validate_destination, validate_identifier};
ghost use Rattle.inlines.specs.Link.{validate_link_text};
ghost use Rattle.inlines.specs.Node.{validate_text_directive, validate_emphasis_container, validate_inline};

use crate::attribute::validate_directive_attributes;
use crate::content::{gather, validate_last_break};
use crate::link::validate_link_text;
use crate::own::validate_inline_values;
use crate::single;
use leaves::report::entries::Report;
use leaves::report::rules::Rule;
use leaves::sheet::records::Rec;
use leaves::sheet::trees::Records;
use leaves::sheet::{classes, kinds};

// Rule 39, or else 40; then 41 and 30. The children of the container `r` are next.
fn validate_emphasis_container(records: &Records, report: &mut Report, r: Rec)
    ensures { Adds report.old report.new
        (validate_emphasis_container records.now.bytes.now (path_of report.old) r.span r.kind r.a
        (trees records.now r.level)) }
{
    let c = gather(records, r.level, r.kind, r.a);
    report.list_if(c.empty, Rule::EmptyEmphasis, r.span);
    let white = !c.empty && (c.starts || c.ends);
    report.list_if(white, Rule::WhiteEmphasis, r.span);
    report.list_if(c.joined, Rule::JoinedEmphasis, r.span);
    validate_last_break(report, c.last_break);
}

// Rule 25 of the link, then 42 of all that it holds.
fn validate_link(records: &Records, report: &mut Report, r: Rec)
    ensures { Adds report.old report.new
        (validate_destination (path_of report.old) r.span r.a r.first
        ⊕ validate_link_text (path_of report.old) (trees records.now r.level)) }
{
    let mut records = *records;
    single::validate_destination(report, r.span, r.a, r.first);
    validate_link_text(&mut records, report, r.level);
}

// Rule 32 of the link, then 42 of all that it holds.
fn validate_link_reference(records: &Records, report: &mut Report, r: Rec)
    ensures { Adds report.old report.new
        (validate_identifier (path_of report.old) Rules.empty_link_reference r.span r.first
        ⊕ validate_link_text (path_of report.old) (trees records.now r.level)) }
{
    let mut records = *records;
    single::validate_identifier(report, Rule::EmptyLinkReference, r.span, r.first);
    validate_link_text(&mut records, report, r.level);
}

// Rule 54, then 55 for each attribute.
fn validate_text_directive(records: &Records, report: &mut Report, r: Rec)
    ensures { Adds report.old report.new
        (validate_text_directive records.now.bytes.now (path_of report.old) r.span r.first
        (trees records.now r.level)) }
{
    let mut records = *records;
    single::validate_directive_name(records.bytes, report, r.span, r.first);
    validate_directive_attributes(&mut records, report, r.level);
}

// Rule 35: an inline footnote holds an inline.
fn validate_inline_footnote(records: &Records, report: &mut Report, r: Rec)
    ensures { Adds report.old report.new
        (list_if (no_inline (trees records.now r.level)) Rules.empty_inline_footnote r.span
        (path_of report.old)) }
{
    let c = gather(records, r.level, r.kind, r.a);
    report.list_if(!c.some, Rule::EmptyInlineFootnote, r.span);
}

// What one inline reports, up to the walk of its children, which are next. The kinds whose rules look at what they hold
// are handled here: emphasis, strong, delete, mark, link, link reference, text directive and inline footnote.
// `validate_inline_values` takes the rest.
#[tactic(auto, unfolding(crate::specs::Node::validate_inline))]
pub(crate) fn validate_inline(records: &Records, report: &mut Report, r: Rec)
    ensures { Adds report.old report.new
        (validate_inline records.now.bytes.now (path_of report.old) r
        (trees records.now r.level)) }
{
    if classes::is_emphasis_container(r.kind) {
        return validate_emphasis_container(records, report, r);
    }
    match r.kind {
        kinds::LINK => validate_link(records, report, r),
        kinds::LINK_REFERENCE => validate_link_reference(records, report, r),
        kinds::TEXT_DIRECTIVE => validate_text_directive(records, report, r),
        kinds::INLINE_FOOTNOTE => validate_inline_footnote(records, report, r),
        _ => validate_inline_values(records.bytes, report, r),
    }
}
