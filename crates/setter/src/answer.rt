// The answer of the setting machine, with its number and its value.
ghost use Rattle.std.specs.Prelude.{◌≡◌};
ghost use Rattle.setter.specs.Answer.{stop_number, set_error_answer, setting_answer};
ghost use Rattle.setter.specs.declared.answer.SetError.TheVariants.{Malformed as IsMalformed};

use leaves::refusal::verdict::Malformed;

// Added to a refusal's number, so that it is no stop's.
const REFUSED: u32 = 256;

const SHORT_MARKS: u32 = 12;

// A stop of the machine, in the order of document 01's table.
#[derive(Clone, Copy, PartialEq, Eq, Debug)]
pub enum Stop {
    // a cell, opened past the columns of its table
    CellTooMany = 1,
    // a row, closed with fewer cells than its table has columns
    CellTooFew = 2,
    // a table, closed without a row or a column
    EmptyTable = 3,
    // an inline break, opened in a cell or in the label of a leaf or container directive
    BreakInLine = 4,
    // a link, autolink, link reference or wikilink, opened under a link or link reference
    LinkInLink = 5,
    // a heading, opened with a depth that is not 1 to 6
    HeadingDepth = 6,
    // an ordered item, opened with a number of its own that is too large
    ItemNumber = 7,
    // a bullet item, opened with a number
    BulletNumber = 8,
    // a list, closed without an item
    EmptyList = 9,
    // a paragraph, emphasis, strong, delete or mark, closed with nothing but empty texts
    EmptyContent = 10,
    // a soft or spaces break, opened straight after a break
    BreakAfterBreak = 11,
    // frontmatter, opened at a level over 1
    InnerFrontmatter = 12,
    // a text or inline code, opened with a line ending in it
    LineEnding = 13,
    // a list, opened after a list of the same written marker, with nothing but blank lines between
    AdjacentLists = 14,
}

impl Stop {
    // Document 01's number of the stop.
    pub fn number(self) -> u32
        ensures { result ≡ stop_number self }
    {
        self as u32
    }
}

// How the machine's run ended. A stop is no error: the machine did its work, and the stop is what it found.
#[derive(Clone, Copy, PartialEq, Eq, Debug)]
pub enum Setting {
    // so many records were opened and closed
    Ended(u32),
    // the stop, and the record that was being opened or closed
    Stopped(Stop, u32),
}

// Why nothing was set. It is no error of the check, which the machine does not ask.
#[derive(Clone, Copy, PartialEq, Eq, Debug)]
pub enum SetError {
    Malformed(Malformed),
    ShortMarks,
}

impl From<Malformed> for SetError {
    ghost from_gives = { λ malformed e. e ≡ IsMalformed malformed };

    fn from(malformed: Malformed) -> SetError {
        SetError::Malformed(malformed)
    }
}

impl SetError {
    // The number of the refusal, with 256 added.
    pub fn number(self) -> u32
        ensures { result ≡ (set_error_answer self).number }
    {
        match self {
            SetError::Malformed(malformed) => REFUSED + malformed.number(),
            SetError::ShortMarks => REFUSED + SHORT_MARKS,
        }
    }

    // The record that the refusal names; 0 where it names none, as the C interface has it.
    pub fn record(self) -> usize
        ensures { result ≡ (set_error_answer self).value }
    {
        match self {
            SetError::Malformed(malformed) => malformed.record(),
            SetError::ShortMarks => 0,
        }
    }
}

// The stop, and 0 at the end; or the number of a refusal, with 256 added. This is a function and no `From`: the type, a
// `Result`, is the library's, and the number alone is not the whole answer.
pub(crate) fn setting_number(setting: Result<Setting, SetError>) -> u32
    ensures { result ≡ (setting_answer setting).number }
{
    match setting {
        Ok(Setting::Ended(_)) => 0,
        Ok(Setting::Stopped(stop, _)) => stop.number(),
        Err(error) => error.number(),
    }
}

// The record of a stop or of a refusal; the number of records at the end.
pub(crate) fn setting_value(setting: Result<Setting, SetError>) -> usize
    ensures { result ≡ (setting_answer setting).value }
{
    match setting {
        Ok(Setting::Ended(records)) => records as usize,
        Ok(Setting::Stopped(_, i)) => i as usize,
        Err(error) => error.record(),
    }
}
