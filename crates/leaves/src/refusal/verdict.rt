// The answer for a sheet, with its number and record.
ghost use Rattle.std.specs.Prelude.{◌≡◌};
ghost use Rattle.leaves.specs.Refusal.Verdict.{refusal_answer, judged_answer};

// Why a sheet is refused, by the name that document 01 gives it; from 4 on with the record that it names.
#[derive(Clone, Copy, PartialEq, Eq, Debug)]
pub enum Malformed {
    OddSheet,
    LongSheet,
    LongText,
    UnknownKind(usize),
    BadLevel(usize),
    Misplaced(usize),
    BadField(usize),
    TextOutside(usize),
    NotUtf8(usize),
    TagsMissing(usize),
}

impl Malformed {
    // Document 01's number of the refusal.
    pub fn number(self) -> u32
        ensures { result ≡ (refusal_answer self).number }
    {
        match self {
            Malformed::OddSheet => 1,
            Malformed::LongSheet => 2,
            Malformed::LongText => 3,
            Malformed::UnknownKind(_) => 4,
            Malformed::BadLevel(_) => 5,
            Malformed::Misplaced(_) => 6,
            Malformed::BadField(_) => 7,
            Malformed::TextOutside(_) => 8,
            Malformed::NotUtf8(_) => 9,
            Malformed::TagsMissing(_) => 10,
        }
    }

    // The record that the refusal names; 0 where it names none, as the C interface has it.
    pub fn record(self) -> usize
        ensures { result ≡ (refusal_answer self).value }
    {
        match self {
            Malformed::OddSheet | Malformed::LongSheet | Malformed::LongText => 0,
            Malformed::UnknownKind(i)
            | Malformed::BadLevel(i)
            | Malformed::Misplaced(i)
            | Malformed::BadField(i)
            | Malformed::TextOutside(i)
            | Malformed::NotUtf8(i)
            | Malformed::TagsMissing(i) => i,
        }
    }
}

// The number of the answer; 0 where the sheet is accepted, as the C interface has it. This is a function and no `From`:
// the type, a `Result`, is the library's, and the number alone is not the whole answer.
pub fn number_of(judged: Result<(), Malformed>) -> u32
    ensures { result ≡ (judged_answer judged).number }
{
    match judged {
        Ok(()) => 0,
        Err(malformed) => malformed.number(),
    }
}

// The record of the answer; 0 where the sheet is accepted, as the C interface has it.
pub fn record_of(judged: Result<(), Malformed>) -> usize
    ensures { result ≡ (judged_answer judged).value }
{
    match judged {
        Ok(()) => 0,
        Err(malformed) => malformed.record(),
    }
}
