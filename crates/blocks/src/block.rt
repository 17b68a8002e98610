// What one block reports, up to the walk of the blocks or items that it holds.
ghost use Rattle.leaves.specs.Sheet.Trees.{trees};
ghost use Rattle.leaves.specs.Report.Listed.{path_of, Adds};
ghost use Rattle.blocks.specs.Block.{validate_own};

use crate::footnote::validate_footnote_definition;
use crate::frontmatter::validate_frontmatter;
use crate::heads;
use crate::html::validate_html_container;
use crate::label::validate_directive;
use crate::list::validate_list;
use crate::paragraph::validate_paragraph;
use crate::table::validate_table;
use leaves::report::entries::Report;
use leaves::report::rules::Rule;
use leaves::sheet::kinds;
use leaves::sheet::records::Rec;
use leaves::sheet::trees::Records;

// The rules of each kind, in validate.rs's order. The kinds that are left have none of their own.
#[tactic(auto, unfolding(crate::specs::Block::validate_own))]
pub(crate) fn validate_own(records: &Records, report: &mut Report, r: Rec)
    ensures { Adds report.old report.new
        (validate_own records.now.bytes.now (path_of report.old) r
        (trees records.now report.old.level)) }
{
    match r.kind {
        kinds::PARAGRAPH => validate_paragraph(records, report, r.span),
        kinds::HEADING => heads::validate_heading(records, report, r),
        kinds::ALERT => heads::validate_alert(records.bytes, report, r),
        kinds::LIST => validate_list(records, report, r),
        kinds::TABLE => validate_table(records, report, r),
        kinds::FOOTNOTE_DEFINITION => validate_footnote_definition(records, report, r),
        kinds::DEFINITION => heads::validate_definition(records.bytes, report, r),
        kinds::LEAF_DIRECTIVE => validate_directive(records, report, Rule::BreakInLeafLabel, r),
        kinds::CONTAINER_DIRECTIVE => {
            validate_directive(records, report, Rule::BreakInContainerLabel, r)
        }
        kinds::HTML_CONTAINER => validate_html_container(records, report, r),
        kinds::CODE_BLOCK => heads::validate_code_block(records.bytes, report, r),
        kinds::FRONTMATTER => validate_frontmatter(records.bytes, report, r),
        _ => {}
    }
}
