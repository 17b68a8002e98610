// A table with its rows and cells.
ghost use Rattle.leaves.specs.Sheet.Trees.{trees};
ghost use Rattle.leaves.specs.Report.Listed.{path_of, Adds};
ghost use Rattle.inlines.specs.Walk.{Walked};
ghost use Rattle.blocks.specs.Table.{validate_cell, validate_cells, validate_rows, validate_table};

use inlines::depth;
use inlines::nodes::validate_inlines;
use leaves::report::entries::Report;
use leaves::report::rules::Rule;
use leaves::sheet::records::Rec;
use leaves::sheet::trees::Records;

// A cell's inlines, then rule 21, then 20.
fn validate_cell(records: &mut Records, report: &mut Report)
    ensures { Walked records.old records.new report.old.level report.old report.new
        (validate_cell records.old.bytes.now (path_of report.old)
        (trees records.old report.old.level)) }
{
    let level = report.level;
    let mut inlines = *records;
    validate_inlines(&mut inlines, report, level);
    let mut values = *records;
    depth::validate_cell_values(&mut values, report, level);
    depth::validate_one_line(records, report, level, Rule::BreakInCell.number());
}

// The cells of a row.
fn validate_cells(records: &mut Records, report: &mut Report)
    ensures { Walked records.old records.new report.old.level report.old report.new
        (validate_cells records.old.bytes.now (path_of report.old) 0
        (trees records.old report.old.level)) }
{
    let level = report.level;
    // the index that goes into the path; `roots` would go over each tree once more than the walk of it does
    let mut k: u32 = 0;
    while let Some(cell) = records.next_under(level) {
        report.enter(k, cell.level);
        validate_cell(records, report);
        report.leave(level);
        k += 1;
    }
}

// The rows of a table whose header has `width` cells: for each rule 19, then its cells.
fn validate_rows(records: &mut Records, report: &mut Report, width: usize)
    ensures { Walked records.old records.new report.old.level report.old report.new
        (validate_rows records.old.bytes.now (path_of report.old) width 0
        (trees records.old report.old.level)) }
{
    let level = report.level;
    // the index that goes into the path; `roots` would go over each tree once more than the walk of it does
    let mut k: u32 = 0;
    while let Some(row) = records.next_under(level) {
        report.enter(k, row.level);
        let other = records.count_trees(row.level) != width;
        report.list_if(other, Rule::RowWidth, row.span);
        validate_cells(records, report);
        report.leave(level);
        k += 1;
    }
}

// Rule 16 alone; or 17, 18 and the rows. A is the table's alignment count.
pub(crate) fn validate_table(records: &Records, report: &mut Report, r: Rec)
    ensures { Adds report.old report.new
        (validate_table records.now.bytes.now (path_of report.old) r.span r.a
        (trees records.now report.old.level)) }
{
    let Some(header) = records.roots(report.level).next() else {
        report.list_if(true, Rule::TableWithoutRow, r.span);
        return;
    };
    let width = header.kids.count_trees(header.root.level);
    report.list_if(width == 0, Rule::TableWithoutCell, r.span);
    report.list_if(r.a as usize != width, Rule::AlignmentCount, r.span);
    let mut rows = *records;
    validate_rows(&mut rows, report, width);
}
