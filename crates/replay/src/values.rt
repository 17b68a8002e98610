// Stored pairs of texts, scalar values, and parts of a text, each with its answer.
ghost use Rattle.std.specs.Prelude.{◌+◌};
ghost use Rattle.replay.specs.Bytes.{byte_at};
ghost use Rattle.replay.specs.Values.{pair_replayed, punctuation_replayed, part_replayed};

use crate::bytes;
use crate::format::Format;
use crate::tally::Tally;
use leaves::text::part::part;
use leaves::text::punctuation::is_ascii_punctuation;
use leaves::text::same::same_bytes;

// How many bytes stand before a pair's texts: the two lengths, the answer.
const PAIR: usize = 3;

#[derive(Clone, Copy)]
pub struct Pairs;

impl Format for Pairs {
    ghost head_bytes = { 3 };

    ghost behind_of = { λ head. byte_at head 0 + byte_at head 1 };

    ghost replayed = { λ _ r t. pair_replayed r t };

    fn head(&self) -> usize {
        PAIR
    }

    fn behind(&self, head: &[u8]) -> usize {
        bytes::small(head, 0) + bytes::small(head, 1)
    }

    // Compares whether the two texts are the same.
    #[tactic(auto, unfolding(crate::specs::Values::pair_replayed))]
    fn replay(&self, r: &[u8], tally: Tally) -> Tally {
        let n = bytes::small(r, 0);
        let m = bytes::small(r, 1);
        let same = same_bytes(part(r, PAIR, n), part(r, PAIR + n, m));
        tally.record().compare(same == (bytes::byte(r, 2) == 1))
    }
}

#[derive(Clone, Copy)]
pub struct Punctuation;

impl Format for Punctuation {
    ghost head_bytes = { 5 };

    ghost behind_of = { λ _. 0 };

    ghost replayed = { λ _ r t. punctuation_replayed r t };

    // The scalar value and the answer.
    fn head(&self) -> usize {
        5
    }

    fn behind(&self, _head: &[u8]) -> usize {
        0
    }

    // Compares whether the scalar value is ASCII punctuation.
    #[tactic(auto, unfolding(crate::specs::Values::punctuation_replayed))]
    fn replay(&self, r: &[u8], tally: Tally) -> Tally {
        let found = is_ascii_punctuation(bytes::number(r, 0));
        tally.record().compare(found == (bytes::byte(r, 4) == 1))
    }
}

// How many bytes stand before the expected bytes of a part: its start and its length, and how many bytes are expected.
const PART: usize = 17;

#[derive(Clone, Copy)]
pub struct Parts;

impl Format for Parts {
    ghost head_bytes = { 17 };

    ghost behind_of = { λ head. byte_at head 16 };

    ghost replayed = { λ _ r t. part_replayed r t };

    fn head(&self) -> usize {
        PART
    }

    fn behind(&self, head: &[u8]) -> usize {
        bytes::small(head, 16)
    }

    // Compares a part of the text of the bytes 0 to 15 with the bytes that are stored for it.
    #[tactic(auto, unfolding(crate::specs::Values::part_replayed))]
    fn replay(&self, r: &[u8], tally: Tally) -> Tally {
        let text = [0u8, 1, 2, 3, 4, 5, 6, 7, 8, 9, 10, 11, 12, 13, 14, 15];
        let start = bytes::long_number(r, 0) as usize;
        let len = bytes::long_number(r, 8) as usize;
        let found = part(&text, start, len);
        let expected = part(r, PART, bytes::small(r, 16));
        tally.record().compare(same_bytes(found, expected))
    }
}
