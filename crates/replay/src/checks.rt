// A stored check and setting. Its head has six counts (words of the sheet, bytes of the text, words of the list, words
// of the report, marks that are written, marks) and two answers (the check's, the setting machine's). Behind the head
// stand the sheet, the text, the list and the marks that are written.
ghost use Rattle.std.specs.Prelude.{◌≡◌, ◌+◌, ◌*◌};
ghost use Rattle.replay.specs.Bytes.{pair_at};
ghost use Rattle.replay.specs.Checks.{check_head, fits_of, checks_replayed};

use crate::format::Format;
use crate::front::{BEFORE, Call, Function};
use crate::tally::Tally;
use crate::{bytes, words};
use leaves::text::part::part;

// How many bytes the head has.
const HEAD: usize = 28;

// The most words of a sheet.
const SHEET: usize = 768;

// The most words of a report.
const REPORT: usize = 512;

// The most marks.
const MARKS: usize = 72;

// Whether the sheet, the report and the marks are within their limits, the list is no longer than the report, and no
// more marks are written than there are.
#[tactic(auto, unfolding(crate::specs::Checks::fits_of))]
fn fits(r: &[u8]) -> bool
    ensures { result ≡ fits_of r.now }
{
    let report = bytes::pair(r, 6);
    let marks = bytes::pair(r, 10);
    bytes::pair(r, 0) <= SHEET
        && bytes::pair(r, 4) <= report
        && report <= REPORT
        && bytes::pair(r, 8) <= marks
        && marks <= MARKS
}

#[derive(Clone, Copy)]
pub struct Checks;

impl Format for Checks {
    ghost head_bytes = { check_head };

    ghost behind_of = { λ head. pair_at head 0 * 4 + pair_at head 2 + pair_at head 4 * 4 + pair_at head 8 * 4 };

    ghost replayed = { λ _ r t. checks_replayed r t };

    fn head(&self) -> usize {
        HEAD
    }

    fn behind(&self, head: &[u8]) -> usize {
        bytes::pair(head, 0) * 4
            + bytes::pair(head, 2)
            + bytes::pair(head, 4) * 4
            + bytes::pair(head, 8) * 4
    }

    // Replays both calls with the same sheet and text, which are read as in `sheets`.
    #[tactic(auto, unfolding(crate::specs::Checks::checks_replayed, crate::specs::Checks::check_replayed, crate::specs::Checks::set_replayed, crate::specs::Checks::check_sheet, crate::specs::Checks::check_text, crate::specs::Checks::check_list, crate::specs::Checks::written_of, crate::specs::Sheets::sheet_in))]
    fn replay(&self, r: &[u8], tally: Tally) -> Tally {
        let mut sheet = [0u32; SHEET];
        let n = bytes::pair(r, 0);
        let bytes = bytes::pair(r, 2);
        let listed = bytes::pair(r, 4) * 4;
        words::fill(&mut sheet, part(r, HEAD, n * 4));
        let text = part(r, HEAD + n * 4, bytes);
        let list = part(r, HEAD + n * 4 + bytes, listed);
        let written = part(r, HEAD + n * 4 + bytes + listed, bytes::pair(r, 8) * 4);
        let check = Call {
            function: Some(Function::Check),
            sheet: words::first(&sheet, n),
            text,
            lent: bytes::pair(r, 6),
        };
        let set = Call {
            function: Some(Function::Set),
            lent: bytes::pair(r, 10),
            ..check
        };
        let mut report = [BEFORE; REPORT];
        let mut marks = [BEFORE; MARKS];
        let fits = fits(r);
        let checked = bytes::long_number(r, 12);
        let tally = check.compare(&mut report, fits, checked, list, tally.record());
        let machine = bytes::long_number(r, 20);
        set.compare(&mut marks, fits, machine, written, tally)
    }
}
