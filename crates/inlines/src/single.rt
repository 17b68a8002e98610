// The rules of one inline and its own values, and of two side by side.
ghost use Rattle.std.specs.Prelude.{unwrap_or};
ghost use Rattle.leaves.specs.Sheet.Kinds.{no_kind};
ghost use Rattle.leaves.specs.Report.Listed.{path_of, Adds};
ghost use Rattle.leaves.specs.Report.RuleNumbers.{rule_number};
ghost use Rattle.inlines.specs.Single.{
  validate_destination,
  validate_identifier,
  validate_escape,
  validate_directive_name,
  validate_tag,
  validate_siblings,
};

use leaves::report::entries::Report;
use leaves::report::rules::Rule;
use leaves::sheet::records::{Rec, Span, Text};
use leaves::sheet::texts::text_of;
use leaves::sheet::{classes, empty, kinds};
use leaves::text::name::is_directive_name;
use leaves::text::punctuation::is_ascii_punctuation;
use leaves::text::unicode_letters::is_tag_name;

// Rule 25: a bare destination (`a` is 0) is not empty.
#[tactic(auto, unfolding(crate::specs::Single::validate_destination))]
pub fn validate_destination(report: &mut Report, span: Span, a: u32, destination: Text)
    ensures { Adds report.old report.new (validate_destination (path_of report.old) span a destination) }
{
    let fault = a == 0 && empty::is_empty(destination);
    report.list_if(fault, Rule::EmptyBareDestination, span);
}

// An identifier or a target is not empty. `rule` is 32, 33, 34 or 36.
#[tactic(auto, unfolding(crate::specs::Single::validate_identifier))]
pub(crate) fn validate_identifier(report: &mut Report, rule: Rule, span: Span, identifier: Text)
    ensures { Adds report.old report.new
        (validate_identifier (path_of report.old) (rule_number rule) span identifier) }
{
    report.list_if(empty::is_empty(identifier), rule, span);
}

// Rule 43: an escaped value is ASCII punctuation.
#[tactic(auto, unfolding(crate::specs::Single::validate_escape))]
pub(crate) fn validate_escape(report: &mut Report, span: Span, a: u32)
    ensures { Adds report.old report.new (validate_escape (path_of report.old) span a) }
{
    let fault = !is_ascii_punctuation(a);
    report.list_if(fault, Rule::EscapedValue, span);
}

// Rule 54.
#[tactic(auto, unfolding(crate::specs::Single::validate_directive_name))]
pub fn validate_directive_name(bytes: &[u8], report: &mut Report, span: Span, name: Text)
    ensures { Adds report.old report.new
        (validate_directive_name bytes.now (path_of report.old) span name) }
{
    let fault = !is_directive_name(text_of(bytes, name));
    report.list_if(fault, Rule::DirectiveName, span);
}

// Rule 56: a tag's name is a letter, and then letters, numbers, `/`, `_` and `-`.
#[tactic(auto, unfolding(crate::specs::Single::validate_tag))]
pub(crate) fn validate_tag(bytes: &[u8], report: &mut Report, span: Span, name: Text)
    ensures { Adds report.old report.new (validate_tag bytes.now (path_of report.old) span name) }
{
    let fault = !is_tag_name(text_of(bytes, name));
    report.list_if(fault, Rule::TagName, span);
}

// Rules 37, 38: a break after a break would leave an empty line, and two strikethroughs join their delimiters.
// `before` is the kind of the inline before.
pub(crate) fn validate_siblings(report: &mut Report, before: Option<u32>, r: Rec)
    ensures { Adds report.old report.new
        (validate_siblings (path_of report.old) r.span (unwrap_or before no_kind) r.kind r.a) }
{
    let Some(before) = before else {
        return;
    };
    let blank_line = classes::is_break(before) && classes::is_plain_break(r.kind, r.a);
    report.list_if(blank_line, Rule::BreakAfterBreak, r.span);
    let joined = before == kinds::DELETE && r.kind == kinds::DELETE;
    report.list_if(joined, Rule::AdjacentStrikethroughs, r.span);
}
