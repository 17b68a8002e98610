// Paragraphs.
ghost use Rattle.std.specs.Prelude.{◌≡◌};
ghost use Rattle.leaves.specs.Sheet.Trees.{trees};
ghost use Rattle.leaves.specs.Report.Listed.{path_of, Adds};
ghost use Rattle.inlines.specs.Nodes.{all_empty};
ghost use Rattle.blocks.specs.Paragraph.{validate_paragraph};

use inlines::nodes::validate_inlines;
use leaves::report::entries::Report;
use leaves::report::rules::Rule;
use leaves::sheet::records::Span;
use leaves::sheet::trees::Records;
use leaves::sheet::{empty, kinds};

// Whether every inline is an empty text.
fn all_empty(records: &Records, level: u32) -> bool
    ensures { result ≡ all_empty (trees records.now level) }
{
    records.roots(level).all(|t| !kinds::is_inline(t.root.kind) || empty::is_empty_text(t.root))
}

// Rule 2, then the inlines.
pub(crate) fn validate_paragraph(records: &Records, report: &mut Report, span: Span)
    ensures { Adds report.old report.new
        (validate_paragraph records.now.bytes.now (path_of report.old) span
        (trees records.now report.old.level)) }
{
    let level = report.level;
    let mut records = *records;
    let empty = all_empty(&records, level);
    report.list_if(empty, Rule::EmptyParagraph, span);
    validate_inlines(&mut records, report, level);
}
