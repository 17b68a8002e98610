// A stored call with a long sheet or a long text. It has the function's number, how many words the sheet has, how many
// bytes the text, how many words are lent to be written into, and how many bytes of those are 0 after the call (4 bytes
// each); then the answer (8 bytes). The sheet is of thematic breaks, the text of zeros.
ghost use Rattle.std.specs.Prelude.{◌≡◌, length, IfOk};
ghost use Rattle.replay.specs.Long.{break_word, breaks_of, unfilled, zeros, untouched_words, call_replayed};

use crate::format::Format;
use crate::front::{BEFORE, Call, Function};
use crate::tally::Tally;
use crate::{bytes, words};
use leaves::sheet::kinds;
use leaves::sheet::records::RECORD_WORDS;
use leaves::text::part::part;
use std::alloc::{AllocError, Global};

// How many bytes a stored call has.
const BYTES: usize = 28;

// The words of 65,537 records: two records more than a sheet may have.
const SHEET: usize = 786444;

// One byte more than a text may have.
const TEXT: usize = 16777217;

// A few words more than a mark for each record that a sheet may have.
const LENT: usize = 65544;

// The long sheet before it is filled, the long text, and what is lent before a call. They are three functions, since
// each promises another list by its name, which no caller computes. The proofs of callers do not unfold `unfilled`,
// `zeros` and `untouched_words`, and so do not compute such long lists.
pub fn sheet(alloc: Global) -> Result<Vec<u32>, AllocError>
    ensures { IfOk result (λ sheet. sheet.items ≡ unfilled) }
{
    vec![in alloc; 0u32; SHEET]
}

pub fn text(alloc: Global) -> Result<Vec<u8>, AllocError>
    ensures { IfOk result (λ text. text.items ≡ zeros) }
{
    vec![in alloc; 0u8; TEXT]
}

#[tactic(auto, unfolding(crate::specs::Long::untouched_words))]
fn lent() -> [u32; LENT]
    ensures { result ≡ untouched_words }
{
    [BEFORE; LENT]
}

// A word of a thematic break at level 1, by its field: the kind, the level, and 0 for each field behind them.
#[tactic(auto, unfolding(crate::specs::Long::break_word))]
fn word(field: usize) -> u32
    ensures { result ≡ break_word field }
{
    match field {
        0 => kinds::THEMATIC_BREAK,
        1 => 1,
        _ => 0,
    }
}

// Fills the words with thematic breaks at level 1, one after another.
#[tactic(auto, using(crate::proofs::WordLaws::words), unfolding(crate::specs::Long::breaks_of))]
pub fn fill_with_breaks(words: &mut [u32])
    ensures { words.new ≡ breaks_of (length words.old) }
{
    for (k, filled) in words.iter_mut().enumerate() {
        *filled = word(k % RECORD_WORDS);
    }
}

// Calls with the long sheet and the long text.
#[derive(Clone, Copy)]
pub struct Calls<'a> {
    pub sheet: &'a [u32],
    pub text: &'a [u8],
}

impl Format for Calls<'_> {
    ghost head_bytes = { 28 };

    ghost behind_of = { λ _. 0 };

    ghost replayed = { λ it r t. call_replayed r it.sheet.now it.text.now t };

    fn head(&self) -> usize {
        BYTES
    }

    fn behind(&self, _head: &[u8]) -> usize {
        0
    }

    // Compares the answer, and each word of what is lent: also those behind the front, which the function does not see.
    #[tactic(auto, unfolding(crate::specs::Long::call_replayed))]
    fn replay(&self, r: &[u8], tally: Tally) -> Tally {
        let n = bytes::large(r, 4);
        let call = Call {
            function: Function::numbered(bytes::large(r, 0)),
            sheet: words::first(self.sheet, n),
            text: part(self.text, 0, bytes::large(r, 8)),
            lent: bytes::large(r, 12),
        };
        let zeros = part(self.text, 0, bytes::large(r, 16));
        let answer = bytes::long_number(r, 20);
        call.compare(
            &mut lent(),
            n <= self.sheet.len(),
            answer,
            zeros,
            tally.record(),
        )
    }
}
