// Well-formed UTF-8.
ghost use Rattle.std.specs.Prelude.{◌≡◌, ◌≤◌, ◌++◌, List, ℕ, eqb, length};
ghost use Rattle.leaves.specs.Text.Utf8.{is_utf8, well_formed, follow, table_3_7, trail};
ghost use Rattle.leaves.specs.Text.Utf8Scans.{breaks_character, expected_after};
ghost use Rattle.leaves.specs.Text.Utf8Expected.{expected_of, expects, trails, Expects};

use crate::text::chunk;
use crate::text::chunk::Ascii;

// How many bytes are read one at a time before chunks of ASCII are looked for again.
const STRETCH: usize = 64;

// What a sequence that has begun expects: how many more bytes, and the range of the next one. The bytes after the next
// must be from 0x80 to 0xBF. Where no more bytes are expected, the range is 0x80 to 0xBF too. Where nothing fits any
// more, the range is one that no byte fits, as in the definition (`nothing`): an Option would be one more test at every
// byte.
#[derive(Clone, Copy)]
pub(crate) struct Expected {
    pub more: u8,
    pub low: u8,
    pub high: u8,
}

impl Expected {
    // So many more bytes, the next of them from `low` to `high`.
    fn new(more: u8, low: u8, high: u8) -> Expected
        ensures { result ≡ expects more low high }
    {
        Expected { more, low, high }
    }

    // So many more bytes, each of them from 0x80 to 0xBF.
    #[tactic(auto, using(crate::proofs::text::Utf8Laws::trailing))]
    pub(crate) fn trails(more: u8) -> Expected
        ensures { Expects (trails more) result }
    {
        Expected::new(more, 0x80, 0xBF)
    }

    // What is expected after the first byte of a sequence. After a byte that begins none: a range that no byte fits.
    #[tactic(auto, unfolding(crate::specs::Text::Utf8Expected::expecting, crate::specs::Text::Utf8::follow, crate::specs::Text::Utf8::table_3_7))]
    fn follow(b: u8) -> Expected
        ensures { Expects (follow table_3_7 b) result }
    {
        // Tests, and no `match` of all rows: that becomes a table of jumps, and runs of characters of three or four
        // bytes are then read at less than half the speed.
        if b < 0x80 {
            return Expected::trails(0);
        }
        if b < 0xC2 {
            return Expected::new(1, 0xBF, 0x80);
        }
        if b < 0xE0 {
            return Expected::trails(1);
        }
        if b < 0xF0 {
            return match b {
                0xE0 => Expected::new(2, 0xA0, 0xBF),
                0xED => Expected::new(2, 0x80, 0x9F),
                _ => Expected::trails(2),
            };
        }
        if b == 0xF0 {
            return Expected::new(3, 0x90, 0xBF);
        }
        if b < 0xF4 {
            return Expected::trails(3);
        }
        if b == 0xF4 {
            return Expected::new(3, 0x80, 0x8F);
        }
        Expected::new(1, 0xBF, 0x80)
    }

    // Whether no more bytes are expected.
    pub(crate) fn is_whole(self) -> bool
        ensures { result ≡ eqb self.more 0 }
    {
        self.more == 0
    }

    // Whether a byte is expected and `b` does not fit.
    #[tactic(auto, using(crate::proofs::text::Utf8Laws::breaks_is))]
    pub(crate) fn breaks_character(self, b: u8) -> bool
        ensures { result ≡ breaks_character (expected_of self) b }
    {
        self.more != 0 && (b < self.low || self.high < b)
    }

    // What is expected after `b`.
    #[tactic(auto, using(crate::proofs::text::Utf8Laws::expected_is))]
    pub(crate) fn after(self, b: u8) -> Expected
        ensures { Expects (expected_after (expected_of self) b) result }
    {
        if self.more == 0 || self.breaks_character(b) {
            Expected::follow(b)
        } else {
            Expected::trails(self.more - 1)
        }
    }

    // What is expected after all these bytes. Where one of them does not fit, the answer is a range that no byte fits;
    // which one is left open. What holds of the answer is that any bytes behind these are well-formed after it exactly
    // where these and they are well-formed after `self`.
    fn after_all(self, bytes: &[u8]) -> Expected
        ensures { (behind : List ℕ)
            → well_formed (expected_of result) behind
            ≡ well_formed (expected_of self) (bytes.now ++ behind) }
    {
        let mut expected = self;
        for &b in bytes {
            if expected.breaks_character(b) {
                return Expected::follow(0xFF);
            }
            expected = expected.after(b);
        }
        expected
    }

    // What is left of the bytes behind chunks of ASCII, where no more bytes are expected. How much is passed over is
    // left open: only speed depends on it. What is left is well-formed after `self` exactly where the bytes are.
    fn past_ascii(self, bytes: &[u8]) -> &[u8]
        ensures { (length result.now ≤ length bytes.now)
            × (well_formed (expected_of self) result.now
            ≡ well_formed (expected_of self) bytes.now) }
    {
        if self.more == 0 {
            chunk::skip_passing(bytes, &Ascii)
        } else {
            bytes
        }
    }
}

// Passes over chunks of ASCII, then reads a stretch a byte at a time: among other characters a chunk is seldom all
// ASCII. A stretch begins where ASCII ends, so no iterator over chunks gives them.
pub fn is_utf8(s: &[u8]) -> bool
    ensures { result ≡ is_utf8 s.now }
{
    let mut expected = Expected::trails(0);
    let mut rest = s;
    while !rest.is_empty() {
        rest = expected.past_ascii(rest);
        let (stretch, behind) = rest.split_at(rest.len().min(STRETCH));
        expected = expected.after_all(stretch);
        rest = behind;
    }
    expected.is_whole()
}
