// A stored film: how many bytes it has and how many are printed for it (4 bytes each), the film, and what is printed.
ghost use Rattle.std.specs.Prelude.{◌≡◌, ◌==◌, ◌+◌};
ghost use Rattle.std.specs.List.{list_all};
ghost use Rattle.replay.specs.Bytes.{number_at};
ghost use Rattle.replay.specs.Films.{film_head, before_byte, untouched_bytes, same_printed, film_replayed};

use crate::bytes;
use crate::format::Format;
use crate::tally::Tally;
use leaves::text::part::part;
use setter::listing::input::INPUT_BYTES;
use setter::listing::print::OUTPUT_BYTES;
use setter::listing::program::list;

// How many bytes stand before the film.
const HEAD: usize = 8;

// The most bytes of a record: the head, the film, and all that can be printed.
pub const MOST: usize = HEAD + INPUT_BYTES + OUTPUT_BYTES;

// Every byte of the output before a film is listed.
const BEFORE: u8 = 0xA5;

// The output before a film is listed. The proofs of callers do not unfold `untouched_bytes`, and so do not compute so
// long a list.
#[tactic(auto, unfolding(crate::specs::Films::untouched_bytes))]
fn output() -> [u8; OUTPUT_BYTES]
    ensures { result ≡ untouched_bytes }
{
    [BEFORE; OUTPUT_BYTES]
}

// Whether each byte is BEFORE.
fn is_untouched(bytes: &[u8]) -> bool
    ensures { result ≡ list_all (λ x. x == before_byte) bytes.now }
{
    bytes.iter().all(|byte| *byte == BEFORE)
}

// Whether each byte is the one wanted at its place, and BEFORE behind the wanted bytes.
fn same(bytes: &[u8], wanted: &[u8]) -> bool
    ensures { result ≡ same_printed bytes.now wanted.now }
{
    let (printed, rest) = bytes.split_at(wanted.len().min(bytes.len()));
    wanted.starts_with(printed) && is_untouched(rest)
}

// `same` of the whole output.
fn same_output(bytes: &[u8; OUTPUT_BYTES], wanted: &[u8]) -> bool
    ensures { result ≡ same_printed bytes.now wanted.now }
{
    same(bytes, wanted)
}

#[derive(Clone, Copy)]
pub struct Films;

impl Format for Films {
    ghost head_bytes = { film_head };

    ghost behind_of = { λ head. number_at head 0 + number_at head 4 };

    ghost replayed = { λ _ r t. film_replayed r t };

    fn head(&self) -> usize {
        HEAD
    }

    fn behind(&self, head: &[u8]) -> usize {
        bytes::large(head, 0) + bytes::large(head, 4)
    }

    // Compares how many bytes are printed, and each byte of the output. Behind what is printed it must be as it was.
    #[tactic(auto, unfolding(crate::specs::Films::film_replayed, crate::specs::Films::film_in, crate::specs::Films::wanted_in, crate::specs::Films::printed_over))]
    fn replay(&self, r: &[u8], tally: Tally) -> Tally {
        let n = bytes::large(r, 0);
        let m = bytes::large(r, 4);
        let wanted = part(r, HEAD + n, m);
        let mut bytes = output();
        let printed = list(part(r, HEAD, n), &mut bytes);
        tally
            .record()
            .compare(printed == m)
            .compare(same_output(&bytes, wanted))
    }
}
