// Directives, up to the walk of their blocks.
ghost use Rattle.std.specs.Prelude.{◌≡◌, ◌+◌};
ghost use Rattle.leaves.specs.Sheet.Forest.{size};
ghost use Rattle.leaves.specs.Sheet.Trees.{trees};
ghost use Rattle.leaves.specs.Report.RuleNumbers.{rule_number};
ghost use Rattle.leaves.specs.Report.Listed.{path_of, Adds};
ghost use Rattle.blocks.specs.Label.{before_blocks, validate_directive};

use inlines::attribute::validate_directive_attributes;
use inlines::depth;
use inlines::nodes::validate_inlines;
use inlines::single::validate_directive_name;
use leaves::report::entries::Report;
use leaves::report::rules::Rule;
use leaves::sheet::kinds;
use leaves::sheet::records::Rec;
use leaves::sheet::trees::Records;

// The record where the blocks of a directive begin, or the one behind it where it has none.
fn label_end(records: &Records, level: u32) -> usize
    ensures { result ≡ records.now.next + size (before_blocks (trees records.now level)) }
{
    let mut records = *records;
    // not by `roots`, which gives the trees, but not the record where the last of them ends
    let mut end = records.next;
    while let Some(r) = records.next_under(level) {
        if kinds::is_block(r.kind) {
            return end;
        }
        records.skip(r.level);
        end = records.next;
    }
    end
}

// Rule 54, then 55, the label's inlines, and `rule` for each break in the label. Each walk is told that the sheet ends
// at the first block, so that none of them goes through the blocks.
pub(crate) fn validate_directive(records: &Records, report: &mut Report, rule: Rule, r: Rec)
    ensures { Adds report.old report.new
        (validate_directive records.now.bytes.now (path_of report.old) (rule_number rule) r.span r.first
        (trees records.now report.old.level)) }
{
    let level = report.level;
    validate_directive_name(records.bytes, report, r.span, r.first);
    let label = records.until(label_end(records, level));
    let mut attributes = label;
    validate_directive_attributes(&mut attributes, report, level);
    let mut inlines = label;
    validate_inlines(&mut inlines, report, level);
    let mut breaks = label;
    depth::validate_one_line(&mut breaks, report, level, rule.number());
}
