// What one inline reports by its own values, by its kind.
ghost use Rattle.leaves.specs.Report.Listed.{path_of, Adds};
ghost use Rattle.inlines.specs.Own.{validate_inline_values};

use crate::{literal, single};
use leaves::report::entries::Report;
use leaves::report::rules::Rule;
use leaves::sheet::kinds;
use leaves::sheet::records::Rec;

// What a text, tag, image, image reference, escape, footnote reference, wikilink, code or math reports: its rules look
// at nothing but its own values. Every other kind lists nothing here.
#[tactic(auto, unfolding(crate::specs::Own::validate_inline_values))]
pub(crate) fn validate_inline_values(bytes: &[u8], report: &mut Report, r: Rec)
    ensures { Adds report.old report.new (validate_inline_values bytes.now (path_of report.old) r) }
{
    match r.kind {
        kinds::TEXT => literal::validate_text(bytes, report, r.span, r.first),
        kinds::TAG => single::validate_tag(bytes, report, r.span, r.first),
        kinds::IMAGE => single::validate_destination(report, r.span, r.a, r.first),
        kinds::IMAGE_REFERENCE => {
            single::validate_identifier(report, Rule::EmptyImageReference, r.span, r.first)
        }
        kinds::ESCAPE => single::validate_escape(report, r.span, r.a),
        kinds::FOOTNOTE_REFERENCE => {
            single::validate_identifier(report, Rule::EmptyFootnoteReference, r.span, r.first)
        }
        kinds::WIKI_LINK => {
            single::validate_identifier(report, Rule::EmptyWikiLink, r.span, r.first)
        }
        kinds::CODE => literal::validate_code_inline(bytes, report, r.span, r.first),
        kinds::MATH => literal::validate_math_inline(bytes, report, r),
        _ => {}
    }
}
