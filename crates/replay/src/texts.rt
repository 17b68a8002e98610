// Stored texts, each with the fourteen answers of the functions that take a text.
ghost use Rattle.std.specs.Prelude.{◌≡◌, ◌<◌};
ghost use Rattle.replay.specs.Bytes.{byte_at};
ghost use Rattle.replay.specs.Texts.{is_bit_set, compared_with_bit, answers_for, compared_bits, text_replayed};

use crate::bytes;
use crate::format::Format;
use crate::tally::Tally;
use leaves::text::edges::has_blank_edge_line;
use leaves::text::fence::{FrontmatterKind, holds_fence_line};
use leaves::text::lines::holds_line_ending;
use leaves::text::math::holds_backtick_dollar;
use leaves::text::name::{is_attribute_name, is_blank_identifier, is_directive_name};
use leaves::text::part::part;
use leaves::text::pipe::has_odd_escaped_pipe;
use leaves::text::title::is_alert_title;
use leaves::text::unicode_letters::is_tag_name;
use leaves::text::utf8::is_utf8;
use leaves::text::white::{ends_with_white, starts_with_white};

// How many answers there are.
const ANSWERS: usize = 14;

// Whether bit k is set.
#[tactic(auto, unfolding(crate::specs::Texts::is_bit_set))]
fn bit(bits: u32, k: usize) -> bool
    requires { k < 32 }
    ensures { result ≡ is_bit_set bits k }
{
    (bits >> k) % 2 == 1
}

// The answers of the functions that take a text, that of the lowest bit first.
#[tactic(auto, unfolding(crate::specs::Texts::answers_for))]
fn answers(s: &[u8]) -> [bool; ANSWERS]
    ensures { result ≡ answers_for s.now }
{
    [
        is_utf8(s),
        starts_with_white(s),
        ends_with_white(s),
        holds_line_ending(s),
        has_blank_edge_line(s),
        holds_fence_line(s, FrontmatterKind::Yaml),
        holds_fence_line(s, FrontmatterKind::Toml),
        is_alert_title(s),
        has_odd_escaped_pipe(s),
        is_directive_name(s),
        is_attribute_name(s),
        is_blank_identifier(s),
        holds_backtick_dollar(s),
        is_tag_name(s),
    ]
}

// Compares an answer with bit k of `bits`, where that bit is set in `mask`.
#[tactic(auto, unfolding(crate::specs::Texts::compared_with_bit))]
fn compare_bit(mask: u32, bits: u32, k: usize, answer: bool, tally: Tally) -> Tally
    requires { k < 32 }
    ensures { result ≡ compared_with_bit mask bits k answer tally }
{
    if bit(mask, k) {
        tally.compare(answer == bit(bits, k))
    } else {
        tally
    }
}

// Compares each answer with its bit.
#[tactic(auto, using(crate::proofs::TextLaws::texts))]
fn compare_answers(answers: &[bool; ANSWERS], mask: u32, bits: u32, tally: Tally) -> Tally
    ensures { result ≡ compared_bits answers.now 0 mask bits tally }
{
    let mut tally = tally;
    for (k, answer) in answers.iter().enumerate() {
        tally = compare_bit(mask, bits, k, *answer, tally);
    }
    tally
}

// How many bytes stand before a record's text: its length, the mask, the answers.
const HEAD: usize = 5;

#[derive(Clone, Copy)]
pub struct Texts;

impl Format for Texts {
    ghost head_bytes = { 5 };

    ghost behind_of = { λ head. byte_at head 0 };

    ghost replayed = { λ _ r t. text_replayed r t };

    fn head(&self) -> usize {
        HEAD
    }

    fn behind(&self, head: &[u8]) -> usize {
        bytes::small(head, 0)
    }

    // Compares the answers whose bits are set in the mask.
    #[tactic(auto, unfolding(crate::specs::Texts::text_replayed))]
    fn replay(&self, r: &[u8], tally: Tally) -> Tally {
        let both = bytes::number(r, 1);
        let mask = both % 0x1_0000;
        let bits = both / 0x1_0000;
        let text = part(r, HEAD, bytes::small(r, 0));
        compare_answers(&answers(text), mask, bits, tally.record())
    }
}
