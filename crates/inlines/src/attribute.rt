// The names of a directive's attributes.
ghost use Rattle.leaves.specs.Sheet.Trees.{trees};
ghost use Rattle.leaves.specs.Report.Listed.{path_of};
ghost use Rattle.inlines.specs.Walk.{Walked};
ghost use Rattle.inlines.specs.Attribute.{validate_directive_attributes};

use crate::values;
use leaves::report::entries::Report;
use leaves::report::rules::Rule;
use leaves::sheet::records::Span;
use leaves::sheet::trees::Records;

// Rule 55: the name of each attribute is an attribute name. The entry has no span.
pub fn validate_directive_attributes(records: &mut Records, report: &mut Report, level: u32)
    ensures { Walked records.old records.new level report.old report.new
        (validate_directive_attributes records.old.bytes.now (path_of report.old)
        (trees records.old level)) }
{
    // not by `roots`: like the other walks this one has to move the records on behind the trees
    while let Some(r) = records.next_under(level) {
        let fault = values::is_bad_attribute(records.bytes, r);
        report.list_if(fault, Rule::AttributeName, Span::none());
        records.skip(r.level);
    }
}
