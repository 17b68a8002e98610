// Words of a stored record.
ghost use Rattle.std.specs.Prelude.{◌≡◌, ◌<◌, ◌^◌, length};
ghost use Rattle.replay.specs.Words.{words_of, first_of, word_or, same_words};

use crate::bytes;

// Fills the words from their bytes.
#[tactic(auto, using(crate::proofs::WordLaws::words), unfolding(crate::specs::Words::words_of))]
pub fn fill(words: &mut [u32], s: &[u8])
    ensures { words.new ≡ words_of (length words.old) s.now }
{
    for (k, word) in words.iter_mut().enumerate() {
        *word = bytes::number(s, k * 4);
    }
}

// The first `n` words; none where there are fewer.
#[tactic(auto, unfolding(crate::specs::Words::first_of))]
pub fn first(words: &[u32], n: usize) -> &[u32]
    ensures { result.now ≡ first_of words.now n }
{
    if n <= words.len() { &words[..n] } else { &[] }
}

// The word whose bytes begin at `at`; `rest` behind the bytes.
#[tactic(auto, unfolding(crate::specs::Words::word_or))]
fn word(s: &[u8], at: usize, rest: u32) -> u32
    requires { at < 2 ^ 63 }
    ensures { result ≡ word_or s.now rest at }
{
    if at < s.len() {
        bytes::number(s, at)
    } else {
        rest
    }
}

// Whether each word is the one whose bytes stand at its place, and `rest` behind the bytes.
#[tactic(auto, using(crate::proofs::WordLaws::words), unfolding(crate::specs::Words::same_words))]
pub fn same(words: &[u32], s: &[u8], rest: u32) -> bool
    ensures { result ≡ same_words words.now s.now rest }
{
    for (k, found) in words.iter().enumerate() {
        if *found != word(s, k * 4, rest) {
            return false;
        }
    }
    true
}
