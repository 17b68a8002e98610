// Calls of the exported functions, each of which is lent the front of some words as its report or its marks.
ghost use Rattle.std.specs.Prelude.{◌≡◌};
ghost use Rattle.replay.specs.Front.{function_of, called_of, answered_of, call_compared};
ghost use Rattle.replay.specs.Words.{Gives};

use crate::tally::Tally;
use crate::words;
use setter::exports::{reedsander_check, reedsander_set};

// An exported function.
#[derive(Clone, Copy, Debug, PartialEq, Eq)]
pub enum Function {
    Check,
    Set,
}

// Every word that is lent, before a call.
pub const BEFORE: u32 = 0xA5A5_A5A5;

// What neither function ever answers. It stands for no answer, and is compared like any other.
const NONE: u64 = 0xFFFF_FFFF_FFFF_FFFF;

impl Function {
    // The function that has this number, if there is one. It is no `TryFrom`: its one caller wants an Option, and would
    // throw the error away.
    #[tactic(auto, unfolding(crate::specs::Front::function_of))]
    pub fn numbered(number: usize) -> Option<Function>
        ensures { result ≡ function_of number }
    {
        match number {
            0 => Some(Function::Check),
            1 => Some(Function::Set),
            _ => None,
        }
    }

    #[tactic(auto, unfolding(crate::specs::Front::called_of))]
    fn call(self, sheet: &[u32], text: &[u8], lent: &mut [u32]) -> u64
        ensures { Gives (called_of self sheet.now text.now lent.old) result lent.new }
    {
        match self {
            Function::Check => reedsander_check(sheet, text, lent),
            Function::Set => reedsander_set(sheet, text, lent),
        }
    }
}

// A call with a sheet and a text, and how many words it is lent.
#[derive(Clone, Copy)]
pub struct Call<'a> {
    pub function: Option<Function>,
    pub sheet: &'a [u32],
    pub text: &'a [u8],
    pub lent: usize,
}

impl Call<'_> {
    // The answer of the function that is lent the front of the words. NONE where there are fewer words, or no function.
    #[tactic(auto, unfolding(crate::specs::Front::answered_of))]
    fn answer(&self, words: &mut [u32]) -> u64
        ensures { Gives (answered_of self.now.function self.now.sheet.now self.now.text.now words.old self.now.lent)
            result words.new }
    {
        let Some(function) = self.function else {
            return NONE;
        };
        if words.len() < self.lent {
            return NONE;
        }
        function.call(self.sheet, self.text, &mut words[..self.lent])
    }

    // Compares the answer, where the call `fits`, and each of the words: at the front with the stored ones, and behind
    // those with BEFORE, also where the word was not lent. It has six parameters: a struct of what is stored, or an
    // Option for `answer` and `fits`, would be made only to be taken apart here.
    #[tactic(auto, unfolding(crate::specs::Front::call_compared))]
    pub fn compare(
        &self,
        words: &mut [u32],
        fits: bool,
        answer: u64,
        stored: &[u8],
        tally: Tally,
    ) -> Tally
        ensures { result ≡ call_compared self.now.function self.now.sheet.now self.now.text.now self.now.lent
            words.old fits answer stored.now tally }
    {
        let found = self.answer(words);
        tally
            .compare(fits && found == answer)
            .compare(words::same(words, stored, BEFORE))
    }
}
