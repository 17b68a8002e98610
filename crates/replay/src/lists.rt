// Stored sheets of one paragraph, each with the list that the Rust gives for its inlines.
ghost use Rattle.std.specs.Prelude.{◌≡◌, ◌+◌, ◌*◌};
ghost use Rattle.replay.specs.Bytes.{pair_at};
ghost use Rattle.replay.specs.Lists.{list_head, listed_of, list_replayed};
ghost use Rattle.replay.specs.Words.{Gives};

use crate::format::Format;
use crate::tally::Tally;
use crate::{bytes, words};
use inlines::nodes::validate_inlines;
use leaves::refusal::judge::accept;
use leaves::report::entries::Report;
use leaves::sheet::records::RECORD_WORDS;
use leaves::sheet::trees::Records;
use leaves::text::part::part;

// How many bytes stand before a record's words: three counts (words of the sheet, bytes of the text, words of the
// list).
const HEAD: usize = 6;

// The most words of a sheet, and of a list.
const MOST: usize = 800;

// Writes the list of the first block's inlines into the report, and answers how many words it has. Where the sheet has
// no record or is refused, it writes nothing and answers 0, as the stored record has it: that is compared as it is.
#[tactic(auto, using(crate::proofs::ListLaws::lists), unfolding(crate::specs::Lists::listed_of))]
fn listed(sheet: &[u32], text: &[u8], report: &mut [u32]) -> usize
    ensures { Gives (listed_of sheet.now text.now report.old)
        result report.new }
{
    let n = sheet.len() / RECORD_WORDS;
    if n < 1 {
        return 0;
    }
    if accept(sheet, text).is_err() {
        return 0;
    }
    let mut records = Records::of_sheet(sheet, text);
    records.next = 1;
    let mut report = Report::new(report);
    report.enter(0, 1);
    validate_inlines(&mut records, &mut report, 1);
    report.tally.words
}

#[derive(Clone, Copy)]
pub struct Lists;

impl Format for Lists {
    ghost head_bytes = { list_head };

    ghost behind_of = { λ head. pair_at head 0 * 4 + pair_at head 2 + pair_at head 4 * 4 };

    ghost replayed = { λ _ r t. list_replayed r t };

    fn head(&self) -> usize {
        HEAD
    }

    fn behind(&self, head: &[u8]) -> usize {
        bytes::pair(head, 0) * 4 + bytes::pair(head, 2) + bytes::pair(head, 4) * 4
    }

    // Compares the length of the list, and each word of the report. Behind the list each must be 0. The sheet and the
    // text are read as in `sheets`.
    fn replay(&self, r: &[u8], tally: Tally) -> Tally {
        let mut sheet = [0u32; MOST];
        let mut report = [0u32; MOST];
        let n = bytes::pair(r, 0);
        let bytes = bytes::pair(r, 2);
        let m = bytes::pair(r, 4);
        words::fill(&mut sheet, part(r, HEAD, n * 4));
        let text = part(r, HEAD + n * 4, bytes);
        let expected = part(r, HEAD + n * 4 + bytes, m * 4);
        let found = listed(words::first(&sheet, n), text, &mut report);
        tally
            .record()
            .compare(n <= MOST && m <= MOST && found == m)
            .compare(words::same(&report, expected, 0))
    }
}
