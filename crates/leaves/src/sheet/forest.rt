// The trees of a sheet, by record number: whether one stands at a record, where trees side by side end, and how many
// there are. The functions ask that the first n records lie in the sheet, and nothing of their levels. `Records` calls
// them, and so may a caller whose sheet is not accepted yet.
ghost use Rattle.std.specs.Prelude.{◌≡◌, ◌+◌, ◌*◌, ◌≤◌, eqb, length};
ghost use Rattle.leaves.specs.Sheet.Records.{record_words};
ghost use Rattle.leaves.specs.Sheet.Forest.{under, size, count_trees};

use crate::sheet::records::level_at;

// Whether no tree deeper than `level` stands at record `i`.
pub fn no_tree_at(sheet: &[u32], n: usize, i: usize, level: u32) -> bool
    requires { (n * record_words ≤ length sheet.now) × (i ≤ n) }
    ensures { result ≡ eqb (count_trees (under sheet.now n i level)) 0 }
{
    n <= i || level_at(sheet, i) <= level
}

// The first record from `from` on that is not deeper than `level`; `n` where there is none.
pub fn skip(sheet: &[u32], n: usize, from: usize, level: u32) -> usize
    requires { (n * record_words ≤ length sheet.now) × (from ≤ n) }
    ensures { result ≡ from + size (under sheet.now n from level) }
{
    for i in from..n {
        if level_at(sheet, i) <= level {
            return i;
        }
    }
    n
}

// How many trees deeper than `level` stand side by side from record `from` on.
pub fn count_trees(sheet: &[u32], n: usize, from: usize, level: u32) -> usize
    requires { (n * record_words ≤ length sheet.now) × (from ≤ n) }
    ensures { result ≡ count_trees (under sheet.now n from level) }
{
    // by number: `roots` needs a `Records`, and so a sheet that keeps to the limits, which is not asked here
    let mut trees: usize = 0;
    let mut next = from;
    while !no_tree_at(sheet, n, next, level) {
        next = skip(sheet, n, next + 1, level_at(sheet, next));
        trees += 1;
    }
    trees
}
