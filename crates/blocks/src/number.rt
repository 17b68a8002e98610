// What an item reports because of its number.
ghost use Rattle.std.specs.Prelude.{◌≡◌};
ghost use Rattle.leaves.specs.Report.Listed.{path_of, Adds};
ghost use Rattle.blocks.specs.Number.{item_number, validate_item_number};

use leaves::refusal::limits::MOST_ITEM_NUMBER;
use leaves::report::entries::Report;
use leaves::report::rules::Rule;
use leaves::sheet::records::Span;

// The number of an item, from its B and C.
#[tactic(auto, unfolding(crate::specs::Number::item_number))]
pub(crate) fn item_number(b: u32, c: u32) -> Option<u32>
    ensures { result ≡ item_number b c }
{
    if b == 1 { Some(c) } else { None }
}

// Rule 49: an item of a bullet list has no number. Rule 50: a number has at most nine digits. `ordered` is the list's
// A, as in the definition.
pub(crate) fn validate_item_number(
    report: &mut Report,
    span: Span,
    ordered: u32,
    number: Option<u32>,
)
    ensures { Adds report.old report.new
        (validate_item_number (path_of report.old) span ordered number) }
{
    let Some(value) = number else {
        return;
    };
    report.list_if(ordered != 1, Rule::BulletNumber, span);
    let long = ordered == 1 && MOST_ITEM_NUMBER < value;
    report.list_if(long, Rule::LongNumber, span);
}
