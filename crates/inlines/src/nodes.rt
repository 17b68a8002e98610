// The walk of inlines: for each the rules of it and the one before it, its own rules, and its children.
ghost use Rattle.std.specs.Prelude.{unwrap_or};
ghost use Rattle.leaves.specs.Sheet.Kinds.{no_kind};
ghost use Rattle.leaves.specs.Sheet.Trees.{trees};
ghost use Rattle.leaves.specs.Report.Listed.{path_of};
ghost use Rattle.inlines.specs.Walk.{Walked};
ghost use Rattle.inlines.specs.Nodes.{validate_node, validate_inline_nodes, validate_inlines};

use crate::content::final_break;
use crate::node::validate_inline;
use crate::single;
use leaves::report::entries::Report;
use leaves::sheet::kinds;
use leaves::sheet::records::Rec;
use leaves::sheet::trees::Records;

// `validate_node` and `validate_inline_nodes` call each other. They end because the number of levels left below 64
// (`levels_left`) falls: the loop over inlines calls `validate_node` for each of them, which is deeper than the loop's
// level. An inline calls the loop over its children at its own level.

// The record `r`, whose children are next: the rules of it and the inline before it, whose kind is `before`; then its
// own rules; then its children. A record that is not an inline is passed over.
#[cycle(nodes)]
fn validate_node(records: &mut Records, report: &mut Report, r: Rec, before: Option<u32>)
    ensures { Walked records.old records.new r.level report.old report.new
        (validate_node records.old.bytes.now (path_of report.old) (unwrap_or before no_kind) r
        (trees records.old r.level)
        (validate_inline_nodes records.old.bytes.now (path_of report.old)
        (trees records.old r.level))) }
{
    if !kinds::is_inline(r.kind) {
        records.skip(r.level);
        return;
    }
    single::validate_siblings(report, before, r);
    validate_inline(records, report, r);
    validate_inline_nodes(records, report, r.level);
}

// The inlines that are next and deeper than `level`.
#[cycle(nodes)]
fn validate_inline_nodes(records: &mut Records, report: &mut Report, level: u32)
    ensures { Walked records.old records.new level report.old report.new
        (validate_inline_nodes records.old.bytes.now (path_of report.old)
        (trees records.old level)) }
{
    // the kind of the inline before the next
    let mut before = None;
    while let Some(r) = records.next_under(level) {
        validate_node(records, report, r, before);
        if kinds::is_inline(r.kind) {
            before = Some(r.kind);
        }
    }
}

// The whole inline content that is next and deeper than `level`: rule 30, then each inline.
pub fn validate_inlines(records: &mut Records, report: &mut Report, level: u32)
    ensures { Walked records.old records.new level report.old report.new
        (validate_inlines records.old.bytes.now (path_of report.old) (trees records.old level)) }
{
    final_break(records, report, level);
    validate_inline_nodes(records, report, level);
}
