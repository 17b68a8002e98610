// The walk of blocks. Document 01: "Blocks hold items, items hold blocks, and levels left fall at each call."
ghost use Rattle.std.specs.Prelude.{◌≤◌};
ghost use Rattle.leaves.specs.Sheet.Trees.{trees};
ghost use Rattle.leaves.specs.Report.Entries.{WritesEntries, empty_tally};
ghost use Rattle.leaves.specs.Report.Listed.{path_of};
ghost use Rattle.leaves.specs.Refusal.Formed.{Sound};
ghost use Rattle.inlines.specs.Walk.{Walked};
ghost use Rattle.blocks.specs.Before.{no_block};
ghost use Rattle.blocks.specs.Walk.{validate_block, validate_blocks, validate_list_items, validate_item};
ghost use Rattle.blocks.specs.Walk.{validate_document};
ghost use Rattle.blocks.specs.WalkAt.{is_last};

use crate::before::{before_next, validate_taken_block};
use crate::block::validate_own;
use crate::holds::holds_blocks;
use crate::item;
use crate::number::{item_number, validate_item_number};
use leaves::report::entries::{Report, Tally};
use leaves::sheet::kinds;
use leaves::sheet::records::Rec;
use leaves::sheet::trees::Records;

// The block walk (`validate_blocks`, `validate_block`), the list walk (`validate_list_items`) and the item walk
// (`validate_item`) call each other. They end because the number of levels left below 64 (`levels_left`) falls:
// - A loop over children (`validate_blocks`, `validate_list_items`) enters each child, which is deeper, and calls
//   `validate_block` or `validate_item` for it.
// - A record (`validate_block`, `validate_item`) calls the loop over its children at its own level: nothing is deeper
//   yet when the loop starts.
// The number that falls at each call is therefore twice the levels left for a loop, and one more for a record.

// The blocks that are next under the record at which the report stands. Trees of another sort (tags, attributes, a
// label's inlines) are passed over, and have no index.
#[cycle(walk)]
fn validate_blocks(records: &mut Records, report: &mut Report)
    ensures { Walked records.old records.new report.old.level report.old report.new
        (validate_blocks records.old.bytes.now (path_of report.old) 0 no_block
        (trees records.old report.old.level)) }
{
    let level = report.level;
    let mut before = None;
    // the index that goes into the path; `roots` would go over each tree once more than the walk of it does
    let mut k: u32 = 0;
    while let Some(r) = records.next_under(level) {
        if !kinds::is_block(r.kind) {
            records.skip(r.level);
            continue;
        }
        report.enter(k, r.level);
        validate_taken_block(report, before, r);
        validate_block(records, report, r);
        report.leave(level);
        before = before_next(before, r);
        k += 1;
    }
}

// The block `r`, at which the report stands and whose children are next: its own rules, then its items or blocks.
#[cycle(walk)]
fn validate_block(records: &mut Records, report: &mut Report, r: Rec)
    ensures { Walked records.old records.new report.old.level report.old report.new
        (validate_block records.old.bytes.now (path_of report.old) r
        (trees records.old report.old.level)
        (validate_list_items records.old.bytes.now (path_of report.old) 0 r.a r.c
        (trees records.old report.old.level))
        (validate_blocks records.old.bytes.now (path_of report.old) 0 no_block
        (trees records.old report.old.level))) }
{
    validate_own(records, report, r);
    if r.kind == kinds::LIST {
        validate_list_items(records, report, r);
        return;
    }
    if holds_blocks(r.kind, r.a) {
        validate_blocks(records, report);
        return;
    }
    records.skip(report.level);
}

// The items of the list `list`, at which the report stands. It is ordered where its A is 1, and tight where its C is 1.
#[cycle(walk)]
fn validate_list_items(records: &mut Records, report: &mut Report, list: Rec)
    ensures { Walked records.old records.new report.old.level report.old report.new
        (validate_list_items records.old.bytes.now (path_of report.old) 0 list.a list.c
        (trees records.old report.old.level)) }
{
    let level = report.level;
    // the index that goes into the path; `roots` would go over each tree once more than the walk of it does
    let mut k: u32 = 0;
    while let Some(r) = records.next_under(level) {
        report.enter(k, r.level);
        validate_item(records, report, level, list, r);
        report.leave(level);
        k += 1;
    }
}

// The item `r`, at which the report stands and whose blocks are next, in the list `list` of the level `outer`.
#[cycle(walk)]
fn validate_item(records: &mut Records, report: &mut Report, outer: u32, list: Rec, r: Rec)
    requires { outer ≤ report.old.level }
    ensures { Walked records.old records.new report.old.level report.old report.new
        (validate_item (path_of report.old) list.a list.c
        (is_last records.old report.old.level outer) r
        (trees records.old report.old.level)
        (validate_blocks records.old.bytes.now (path_of report.old) 0 no_block
        (trees records.old report.old.level))) }
{
    validate_item_number(report, r.span, list.a, item_number(r.b, r.c));
    item::validate_item_blank_lines(records, report, outer, list.c == 1);
    item::validate_task_item(records, report, r);
    validate_blocks(records, report);
}

// The whole list of an accepted sheet.
pub(crate) fn validate_document(sheet: &[u32], bytes: &[u8], report: &mut [u32]) -> Tally
    requires { Sound sheet.now bytes.now }
    ensures { WritesEntries empty_tally result report.old report.new
        (validate_document sheet.now bytes.now) }
{
    let mut records = Records::of_sheet(sheet, bytes);
    let mut report = Report::new(report);
    validate_blocks(&mut records, &mut report);
    report.tally
}
