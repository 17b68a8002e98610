// The walks over every record of some trees, at any depth. Their loops differ in one test: a closure for it, with what
// it promises, would be longer than the loop.
ghost use Rattle.leaves.specs.Sheet.Trees.{trees};
ghost use Rattle.leaves.specs.Report.Listed.{path_of};
ghost use Rattle.inlines.specs.Walk.{Walked};
ghost use Rattle.inlines.specs.Depth.{validate_one_line, validate_cell_values};

use crate::values;
use leaves::report::entries::Report;
use leaves::report::rules::Rule;
use leaves::sheet::classes;
use leaves::sheet::trees::Records;

// Rules 20, 22, 23: no break at any depth. A record's children follow it in the sheet, so one loop reaches all depths.
// `rule` is a number and no `Rule`, since the promise is made for every number.
pub fn validate_one_line(records: &mut Records, report: &mut Report, level: u32, rule: u32)
    ensures { Walked records.old records.new level report.old report.new
        (validate_one_line rule (path_of report.old) (trees records.old level)) }
{
    while let Some(r) = records.next_under(level) {
        let fault = classes::is_break(r.kind);
        report.list_number_if(fault, rule, r.span);
    }
}

// Rule 21: no value with a `|` after an odd run of backslashes, at any depth.
pub fn validate_cell_values(records: &mut Records, report: &mut Report, level: u32)
    ensures { Walked records.old records.new level report.old report.new
        (validate_cell_values records.old.bytes.now (path_of report.old)
        (trees records.old level)) }
{
    while let Some(r) = records.next_under(level) {
        let fault = values::is_unwritable(records.bytes, r);
        report.list_if(fault, Rule::PipeInCell, r.span);
    }
}
