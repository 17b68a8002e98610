// The characters of a text, a byte at a time.
ghost use Rattle.std.specs.Prelude.{◌≡◌, ◌<◌, [], eqb};
ghost use Rattle.leaves.specs.Text.Utf8Expected.{expected_of, Expects};
ghost use Rattle.leaves.specs.Text.Utf8Scans.{expected_after};
ghost use Rattle.leaves.specs.Text.Scalars.{lead_bits};
ghost use Rattle.leaves.specs.Text.ScalarScans.{value_after, room};

use crate::text::utf8::Expected;

// The bits of a first byte that belong to the scalar value.
#[tactic(auto, unfolding(crate::specs::Text::Scalars::lead_bits))]
fn lead_bits(b: u8) -> u32
    ensures { result ≡ lead_bits b }
{
    let bits = match b {
        0x00..=0x7F => b,
        0x80..=0xDF => b % 0x20,
        0xE0..=0xEF => b % 0x10,
        0xF0..=0xFF => b % 0x08,
    };
    u32::from(bits)
}

// A character that is being read: what its sequence still expects, and the value of its bits so far.
#[derive(Clone, Copy)]
pub(crate) struct Character {
    pub expected: Expected,
    pub value: u32,
    ghost small: { value < room expected.more },
}

impl Character {
    // No byte is read yet.
    pub(crate) fn new() -> Character
        ensures expected { Expects [] result.expected }
        ensures value { result.value ≡ 0 }
    {
        Character {
            expected: Expected::trails(0),
            value: 0,
        }
    }

    // Whether all bytes of the character are read.
    pub(crate) fn is_whole(self) -> bool
        ensures { result ≡ eqb self.expected.more 0 }
    {
        self.expected.is_whole()
    }

    // The value with the bits of `b`.
    #[tactic(auto, using(crate::proofs::text::ScalarLaws::value_is))]
    fn value_after(self, b: u8) -> u32
        ensures { result ≡ value_after (expected_of self.expected) self.value b }
    {
        if self.expected.more == 0 || self.expected.breaks_character(b) {
            lead_bits(b)
        } else {
            self.value * 0x40 + u32::from(b) % 0x40
        }
    }

    // The character that `b` continues or begins. Most bytes are ASCII and come where no character is unfinished: they
    // are tested first. It is inlined, since a call would pass the struct through memory.
    #[inline(always)]
    pub(crate) fn after(self, b: u8) -> Character
        ensures expected { Expects (expected_after (expected_of self.expected) b) result.expected }
        ensures value { result.value ≡ value_after (expected_of self.expected) self.value b }
    {
        if b < 0x80 && self.is_whole() {
            return Character {
                expected: Expected::trails(0),
                value: u32::from(b),
            };
        }
        Character {
            expected: self.expected.after(b),
            value: self.value_after(b),
        }
    }
}
