// The rules of text, code and math, whose values are written as they are.
ghost use Rattle.leaves.specs.Report.Listed.{path_of, Adds};
ghost use Rattle.inlines.specs.Literal.{validate_text, validate_code_inline, validate_math_inline};

use leaves::report::entries::Report;
use leaves::report::rules::Rule;
use leaves::sheet::empty;
use leaves::sheet::records::{Rec, Span, Text};
use leaves::sheet::texts::text_of;
use leaves::text::lines::holds_line_ending;
use leaves::text::math::holds_backtick_dollar;

// Rule 31: text holds no line ending.
#[tactic(auto, unfolding(crate::specs::Literal::validate_text))]
pub(crate) fn validate_text(bytes: &[u8], report: &mut Report, span: Span, value: Text)
    ensures { Adds report.old report.new (validate_text bytes.now (path_of report.old) span value) }
{
    let fault = holds_line_ending(text_of(bytes, value));
    report.list_if(fault, Rule::LineEndingInText, span);
}

// Rules 44, 45: inline code is not empty and holds no line ending.
pub(crate) fn validate_code_inline(bytes: &[u8], report: &mut Report, span: Span, value: Text)
    ensures { Adds report.old report.new
        (validate_code_inline bytes.now (path_of report.old) span value) }
{
    report.list_if(empty::is_empty(value), Rule::EmptyCode, span);
    let ends = holds_line_ending(text_of(bytes, value));
    report.list_if(ends, Rule::LineEndingInCode, span);
}

// Rules 46, 47, 48: inline math is not empty; a dollar fence (A is 0) has B dollars, at least one; the code form (A is
// 1) holds no "`$".
pub(crate) fn validate_math_inline(bytes: &[u8], report: &mut Report, r: Rec)
    ensures { Adds report.old report.new
        (validate_math_inline bytes.now (path_of report.old) r.span r.a r.b r.first) }
{
    let empty = empty::is_empty(r.first);
    report.list_if(empty, Rule::EmptyMath, r.span);
    let bare = r.a == 0 && r.b == 0;
    report.list_if(bare, Rule::MathWithoutFence, r.span);
    let closes = r.a == 1 && holds_backtick_dollar(text_of(bytes, r.first));
    report.list_if(closes, Rule::BacktickDollarInMath, r.span);
}
