// Stored sheets, each with the refusal that a plain reading of document 01 gives.
ghost use Rattle.std.specs.Prelude.{◌≡◌, ◌+◌, ◌*◌};
ghost use Rattle.replay.specs.Bytes.{pair_at};
ghost use Rattle.replay.specs.Sheets.{sheet_head, judged_of, sheet_replayed};

use crate::format::Format;
use crate::tally::Tally;
use crate::{bytes, words};
use leaves::refusal::judge::accept;
use leaves::refusal::verdict::{Malformed, number_of, record_of};
use leaves::text::part::part;

// How many bytes stand before a record's words: two counts (words of the sheet, bytes of the text), and the number and
// the record of the answer.
const HEAD: usize = 7;

// The most words of a sheet.
const MOST: usize = 800;

// The answer for a stored sheet. A sheet of over MOST words is judged as a sheet of no words. Each format reads its
// sheet and text where they stand in its records: one function for all would be handed the array, and where they stand.
#[tactic(auto, unfolding(crate::specs::Sheets::judged_of, crate::specs::Sheets::sheet_in))]
fn judged(r: &[u8]) -> Result<(), Malformed>
    ensures { result ≡ judged_of r.now }
{
    let mut sheet = [0u32; MOST];
    let n = bytes::pair(r, 0);
    words::fill(&mut sheet, part(r, HEAD, n * 4));
    let text = part(r, HEAD + n * 4, bytes::pair(r, 2));
    accept(words::first(&sheet, n), text)
}

#[derive(Clone, Copy)]
pub struct Sheets;

impl Format for Sheets {
    ghost head_bytes = { sheet_head };

    ghost behind_of = { λ head. pair_at head 0 * 4 + pair_at head 2 };

    ghost replayed = { λ _ r t. sheet_replayed r t };

    fn head(&self) -> usize {
        HEAD
    }

    fn behind(&self, head: &[u8]) -> usize {
        bytes::pair(head, 0) * 4 + bytes::pair(head, 2)
    }

    // Compares the number and the record of the answer.
    #[tactic(auto, unfolding(crate::specs::Sheets::sheet_replayed))]
    fn replay(&self, r: &[u8], tally: Tally) -> Tally {
        let fits = bytes::pair(r, 0) <= MOST;
        let answer = judged(r);
        let number = number_of(answer) as usize;
        let record = record_of(answer);
        tally
            .record()
            .compare(fits && number == bytes::small(r, 4))
            .compare(fits && record == bytes::pair(r, 5))
    }
}
