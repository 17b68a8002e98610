// Links in the text of a link.
ghost use Rattle.std.specs.Prelude.{◌+◌, if◌then◌else◌};
ghost use Rattle.leaves.specs.Sheet.Forest.{size};
ghost use Rattle.leaves.specs.Sheet.Trees.{trees, Moved};
ghost use Rattle.leaves.specs.Report.Listed.{path_of};
ghost use Rattle.inlines.specs.Walk.{Walked};
ghost use Rattle.inlines.specs.Link.{validate_link_text};

use leaves::report::entries::Report;
use leaves::report::rules::Rule;
use leaves::sheet::classes;
use leaves::sheet::trees::Records;

// Where a link was found, goes on behind all that it holds.
fn past_link(records: &mut Records, found: bool, level: u32)
    ensures { Moved records.old records.new
        (records.old.next + (if found then size (trees records.old level) else 0)) }
{
    if found {
        records.skip(level);
    }
}

// Rule 42: link text holds no link, at any depth. The walk does not look into a link that it has found.
pub(crate) fn validate_link_text(records: &mut Records, report: &mut Report, level: u32)
    ensures { Walked records.old records.new level report.old report.new
        (validate_link_text (path_of report.old) (trees records.old level)) }
{
    while let Some(r) = records.next_under(level) {
        let found = classes::is_link(r.kind);
        report.list_if(found, Rule::LinkInLink, r.span);
        past_link(records, found, r.level);
    }
}
