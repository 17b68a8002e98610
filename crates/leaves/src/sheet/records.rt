// The records of a sheet, by number. Each function asks that its record lies in the sheet. `Records` has that in its
// type; the refusals, the machine and `forest` go by number, and ask it here.
ghost use Rattle.std.specs.Prelude.{◌≡◌, ◌+◌, ◌*◌, ◌<◌, ◌≤◌, length};
ghost use Rattle.leaves.specs.Sheet.Records.{record_words, word_at, text_at, record_at};

pub const RECORD_WORDS: usize = 12;

// A span, in the words of the C interface: entries have the same three, so `flag` is no Option of the other two.
#[derive(Clone, Copy, PartialEq, Eq, Debug)]
pub struct Span {
    pub flag: u32,
    pub start: u32,
    pub end: u32,
}

impl Span {
    ghost use Rattle.leaves.specs.Sheet.Records.{no_span};

    // The span of what has none.
    pub fn none() -> Self
        ensures { result ≡ no_span }
    {
        Span {
            flag: 0,
            start: 0,
            end: 0,
        }
    }
}

// A text that a record names: a part of the sheet's text.
#[derive(Clone, Copy, PartialEq, Eq, Debug)]
pub struct Text {
    pub start: u32,
    pub len: u32,
}

#[derive(Clone, Copy, PartialEq, Eq, Debug)]
pub struct Rec {
    pub kind: u32,
    pub level: u32,
    pub span: Span,
    pub a: u32,
    pub b: u32,
    pub c: u32,
    pub first: Text,
    pub second: Text,
}

// Word `k` of record `i`.
fn word(sheet: &[u32], i: usize, k: usize) -> u32
    requires { i * record_words + k < length sheet.now }
    ensures { result ≡ word_at sheet.now i k }
{
    sheet[i * RECORD_WORDS + k]
}

pub(crate) fn kind_at(sheet: &[u32], i: usize) -> u32
    requires { i * record_words + record_words ≤ length sheet.now }
    ensures { result ≡ (record_at sheet.now i).kind }
{
    word(sheet, i, 0)
}

pub fn level_at(sheet: &[u32], i: usize) -> u32
    requires { i * record_words + record_words ≤ length sheet.now }
    ensures { result ≡ (record_at sheet.now i).level }
{
    word(sheet, i, 1)
}

pub fn record_at(sheet: &[u32], i: usize) -> Rec
    requires { i * record_words + record_words ≤ length sheet.now }
    ensures { result ≡ record_at sheet.now i }
{
    let span = span_at(sheet, i);
    let first = text_at(sheet, i, 8);
    let second = text_at(sheet, i, 10);
    Rec {
        kind: word(sheet, i, 0),
        level: word(sheet, i, 1),
        span,
        a: word(sheet, i, 5),
        b: word(sheet, i, 6),
        c: word(sheet, i, 7),
        first,
        second,
    }
}

fn span_at(sheet: &[u32], i: usize) -> Span
    requires { i * record_words + record_words ≤ length sheet.now }
    ensures { result ≡ (record_at sheet.now i).span }
{
    Span {
        flag: word(sheet, i, 2),
        start: word(sheet, i, 3),
        end: word(sheet, i, 4),
    }
}

// The text whose start is word `k` of record `i`.
fn text_at(sheet: &[u32], i: usize, k: usize) -> Text
    requires { (i * record_words + record_words ≤ length sheet.now) × (k < 11) }
    ensures { result ≡ text_at sheet.now i k }
{
    Text {
        start: word(sheet, i, k),
        len: word(sheet, i, k + 1),
    }
}
