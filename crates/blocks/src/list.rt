// A list, up to the walk of its items.
ghost use Rattle.std.specs.Prelude.{◌≡◌};
ghost use Rattle.leaves.specs.Sheet.Trees.{trees};
ghost use Rattle.leaves.specs.Report.Listed.{path_of, Adds};
ghost use Rattle.blocks.specs.List.{count_full, holds_one_block, validate_list};

use leaves::report::entries::Report;
use leaves::report::rules::Rule;
use leaves::sheet::kinds;
use leaves::sheet::records::Rec;
use leaves::sheet::trees::Records;

// How many blocks are not blank lines.
fn count_full(records: &Records, level: u32) -> usize
    ensures { result ≡ count_full (trees records.now level) }
{
    records
        .roots(level)
        .filter(|t| t.root.kind != kinds::BLANK_LINE)
        .count()
}

// Whether there is exactly one item, and it holds at most one block beside blank lines.
fn holds_one_block(records: &Records, level: u32) -> bool
    ensures { result ≡ holds_one_block (trees records.now level) }
{
    let mut items = records.roots(level);
    let Some(item) = items.next() else {
        return false;
    };
    items.next().is_none() && count_full(&item.kids, item.root.level) < 2
}

// Rule 12: a list holds an item. Rule 13: a list of one item that holds at most one block is tight (C is 1).
pub(crate) fn validate_list(records: &Records, report: &mut Report, r: Rec)
    ensures { Adds report.old report.new
        (validate_list (path_of report.old) r.span r.c (trees records.now report.old.level)) }
{
    let level = report.level;
    report.list_if(records.end(level), Rule::EmptyList, r.span);
    if r.c == 1 {
        return;
    }
    let loose = holds_one_block(records, level);
    report.list_if(loose, Rule::LooseList, r.span);
}
