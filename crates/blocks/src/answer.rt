// The answer of the check, with its number and its record or count.
ghost use Rattle.std.specs.Prelude.{◌≡◌};
ghost use Rattle.blocks.specs.Answer.{check_error_answer, checked_answer};
ghost use Rattle.blocks.specs.declared.answer.CheckError.TheVariants.{Malformed as IsMalformed};

use leaves::refusal::verdict::Malformed;

const SHORT_REPORT: u32 = 11;

// Why nothing is listed.
#[derive(Clone, Copy, PartialEq, Eq, Debug)]
pub enum CheckError {
    Malformed(Malformed),
    ShortReport,
}

impl From<Malformed> for CheckError {
    ghost from_gives = { λ malformed e. e ≡ IsMalformed malformed };

    fn from(malformed: Malformed) -> CheckError {
        CheckError::Malformed(malformed)
    }
}

impl CheckError {
    // Document 01's number of the refusal.
    pub fn number(self) -> u32
        ensures { result ≡ (check_error_answer self).number }
    {
        match self {
            CheckError::Malformed(malformed) => malformed.number(),
            CheckError::ShortReport => SHORT_REPORT,
        }
    }

    // The record that the refusal names; 0 where it names none, as the C interface has it.
    pub fn record(self) -> usize
        ensures { result ≡ (check_error_answer self).value }
    {
        match self {
            CheckError::Malformed(malformed) => malformed.record(),
            CheckError::ShortReport => 0,
        }
    }
}

// Document 01's number of the answer; 0 where the sheet is accepted. This is a function and no `From`: the type, a
// `Result`, is the library's, and the number alone is not the whole answer.
pub fn answer_number(checked: Result<usize, CheckError>) -> u32
    ensures { result ≡ (checked_answer checked).number }
{
    match checked {
        Ok(_) => 0,
        Err(error) => error.number(),
    }
}

// The number of entries, or the record of a refusal.
pub fn answer_value(checked: Result<usize, CheckError>) -> usize
    ensures { result ≡ (checked_answer checked).value }
{
    match checked {
        Ok(entries) => entries,
        Err(error) => error.record(),
    }
}
