// Counts the report's entries, and writes those that fit.
ghost use Rattle.std.specs.Prelude.{◌≡◌, cond, ◌+◌, ◌≤◌, length};
ghost use Rattle.leaves.specs.Report.Entries.{words, head_words, list_if, capped, empty_tally, counted};
ghost use Rattle.leaves.specs.Text.Over.{over};
ghost use Rattle.leaves.specs.Refusal.Limits.{most_level};

use crate::refusal::limits::MOST_LEVEL;
use crate::report::rules::Rule;
use crate::sheet::records::Span;

// The most that a sum of the tally can be; no report has so many words.
const CAP: usize = 4611686018427387904;

// How many words of an entry stand before its path; the last of them is the path's length.
pub const HEAD: usize = 5;

// How many words and entries the list has so far.
#[derive(Clone, Copy, PartialEq, Eq, Debug)]
pub struct Tally {
    pub words: usize,
    pub entries: usize,
}

impl Tally {
    // The tally of no entries.
    pub fn empty() -> Self
        ensures { result ≡ empty_tally }
    {
        Tally {
            words: 0,
            entries: 0,
        }
    }

    // With one more entry, whose path has `depth` words.
    fn with_entry(self, depth: usize) -> Self
        requires { depth ≤ most_level }
        ensures { result ≡ counted self (head_words + depth) }
    {
        Tally {
            words: sum(self.words, HEAD + depth),
            entries: sum(self.entries, 1),
        }
    }
}

// The sum, or CAP where it is more.
fn sum(a: usize, b: usize) -> usize
    ensures { result ≡ capped a b }
{
    a.saturating_add(b).min(CAP)
}

// Writes `src` over `dst` from `at` on. Not by `copy_from_slice`: for a path of any length that calls C's `memmove`, and
// the library for C must need none from outside but `memset`.
#[tactic(auto, using(crate::proofs::report::EntryLaws::reports))]
fn copy_at(dst: &mut [u32], at: usize, src: &[u32])
    requires { at + length src.now ≤ length dst.old }
    ensures { dst.new ≡ over dst.old at src.now }
{
    for (i, &word) in src.iter().enumerate() {
        dst[at + i] = word;
    }
}

// Writes an entry at the front of the tail, if the whole entry fits.
#[tactic(auto, using(crate::proofs::report::EntryLaws::reports))]
fn write_entry(tail: &mut [u32], rule: u32, span: Span, path: &[u32])
    requires { length path.now ≤ most_level }
    ensures { tail.new
        ≡ over tail.old 0 (words (record { rule = rule; span = span; path = path.now })) }
{
    let n = path.len();
    if tail.len() < HEAD + n {
        return;
    }
    let head = [rule, span.flag, span.start, span.end, n as u32];
    copy_at(tail, 0, &head);
    copy_at(tail, HEAD, path);
}

// The same from word `at` on.
#[tactic(auto, using(crate::proofs::report::EntryLaws::reports))]
fn write_at(report: &mut [u32], at: usize, rule: u32, span: Span, path: &[u32])
    requires { length path.now ≤ most_level }
    ensures { report.new
        ≡ over report.old at (words (record { rule = rule; span = span; path = path.now })) }
{
    if report.len() < at {
        return;
    }
    write_entry(&mut report[at..], rule, span, path);
}

// A report that a walk writes, with the list's tally. The walk stands at a record of the level `level`, whose path is
// the first `depth` words of `path`; before the first record both are 0. The path is an array with a length beside it,
// since nothing may be allocated. The `Records` and the text that a rule reads are not in this struct: the report is
// written while they are read, and they are copied where they are read twice.
#[derive(Drop)]
pub struct Report<'a> {
    pub words: &'a mut [u32],
    pub tally: Tally,
    pub path: [u32; MOST_LEVEL as usize],
    pub depth: usize,
    pub level: u32,
    pub ghost room: { length path ≡ most_level },
    pub ghost short: { depth ≤ level },
    pub ghost shallow: { level ≤ most_level },
}

impl<'a> Report<'a> {
    ghost use Rattle.std.specs.Prelude.{◌<◌};
    ghost use Rattle.leaves.specs.Report.RuleNumbers.{rule_number};
    ghost use Rattle.leaves.specs.Report.Listed.{path_of, Adds, Enters, Leaves};

    // A report of no entries, before the first record.
    pub fn new(words: &'a mut [u32]) -> Self
        ensures loan { result.words.ghost_name ≡ words.entry.ghost_name }
        ensures words { result.words.now ≡ words.old }
        ensures tally { result.tally ≡ empty_tally }
        ensures top { (result.depth ≡ 0) × (result.level ≡ 0) }
    {
        Report {
            words,
            tally: Tally::empty(),
            path: [0; MOST_LEVEL as usize],
            depth: 0,
            level: 0,
        }
    }

    // Where `fault` holds, counts a diagnostic of the rule, and writes its entry behind those before it if the whole
    // entry fits.
    pub fn list_if(&mut self, fault: bool, rule: Rule, span: Span)
        ensures { Adds self.old self.new (list_if fault (rule_number rule) span (path_of self.old)) }
    {
        self.list_number_if(fault, rule.number(), span);
    }

    // The same for any number of a rule, for functions that promise their list for every number.
    pub fn list_number_if(&mut self, fault: bool, rule: u32, span: Span)
        ensures { Adds self.old self.new (list_if fault rule span (path_of self.old)) }
    {
        if !fault {
            return;
        }
        let path = &self.path[..self.depth];
        write_at(self.words, self.tally.words, rule, span, path);
        self.tally = self.tally.with_entry(self.depth);
    }

    // Goes on to a record of the level `level`, which is the child number `index` of the record where the walk stood.
    // Document 01: "The closure in `Report::at` becomes a path passed down", so entering and leaving are two calls.
    pub fn enter(&mut self, index: u32, level: u32)
        requires { (self.old.level < level) × (level ≤ most_level) }
        ensures { Enters self.old self.new index level }
    {
        self.path[self.depth] = index;
        self.depth += 1;
        self.level = level;
    }

    // Goes back to the record that holds this one, and has the level `level`.
    pub fn leave(&mut self, level: u32)
        requires { (0 < self.old.depth) × (self.old.depth ≤ level + 1) × (level ≤ most_level) }
        ensures { Leaves self.old self.new level }
    {
        self.depth -= 1;
        self.level = level;
    }
}
