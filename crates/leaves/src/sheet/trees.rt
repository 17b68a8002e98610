// The records of a sheet as a walk reads them: one after another, tree by tree.
ghost use Rattle.std.specs.Prelude.{◌*◌, ◌<◌, ◌≤◌, ℕ, length};
ghost use Rattle.leaves.specs.Sheet.Records.{record_at, record_words};
ghost use Rattle.leaves.specs.Refusal.Limits.{most_records, most_level};

use crate::sheet::records::{RECORD_WORDS, Rec};
use crate::sheet::{forest, records};

// The first `n` records of a sheet that keeps to the limits, the sheet's text, and the number of the record that is
// read next. `n` stands beside the sheet, so that no step has to divide the sheet's length by that of a record.
#[derive(Clone, Copy)]
pub struct Records<'a> {
    pub sheet: &'a [u32],
    pub bytes: &'a [u8],
    pub n: usize,
    pub next: usize,
    pub ghost whole: { n * record_words ≤ length sheet.now },
    pub ghost few: { n ≤ most_records },
    pub ghost shallow: { (i : ℕ) → i < n → (record_at sheet.now i).level ≤ most_level },
    pub ghost inside: { next ≤ n },
}

impl<'a> Records<'a> {
    ghost use Rattle.std.specs.Prelude.{◌≡◌, ◌+◌, eqb, IfSome, IfNone};
    ghost use Rattle.leaves.specs.Sheet.Records.{records_of};
    ghost use Rattle.leaves.specs.Sheet.Forest.{count_trees, size};
    ghost use Rattle.leaves.specs.Sheet.Roots.{roots, roots_left};
    ghost use Rattle.leaves.specs.Sheet.Trees.{trees, OfSheet, Until, Moved, ReadsNext, Ends};
    ghost use Rattle.leaves.specs.Refusal.Formed.{Sound};

    // All records of an accepted sheet.
    pub fn of_sheet(sheet: &'a [u32], bytes: &'a [u8]) -> Self
        requires { Sound sheet.now bytes.now }
        ensures { OfSheet sheet.now bytes.now result }
    {
        Records {
            sheet,
            bytes,
            n: sheet.len() / RECORD_WORDS,
            next: 0,
        }
    }

    // The same, as if the sheet ended before record `end`.
    pub fn until(&self, end: usize) -> Self
        requires { (self.now.next ≤ end) × (end ≤ self.now.n) }
        ensures { Until self.now result end }
    {
        // field by field: Rattle has no `..` for a struct with ghost fields
        Records {
            sheet: self.sheet,
            bytes: self.bytes,
            n: end,
            next: self.next,
        }
    }

    // Reads the next record if it is deeper than `level`, and goes on behind it. So a loop over this goes through all
    // records of the trees side by side, and one that skips what stands under each goes from tree to tree. A loop that
    // walks into each tree lends the records to that walk, which moves them on; with `roots` it would go over each tree
    // once more.
    pub fn next_under(&mut self, level: u32) -> Option<Rec>
        ensures some { IfSome result (λ r. ReadsNext self.old self.new level r) }
        ensures none { IfNone result (Ends self.old self.new level) }
    {
        if self.next == self.n {
            return None;
        }
        let r = records::record_at(self.sheet, self.next);
        if r.level <= level {
            return None;
        }
        self.next += 1;
        Some(r)
    }

    // Whether no record deeper than `level` is next.
    pub fn end(&self, level: u32) -> bool
        ensures { result ≡ eqb (count_trees (trees self.now level)) 0 }
    {
        forest::no_tree_at(self.sheet, self.n, self.next, level)
    }

    // Goes on behind the trees that are deeper than `level`.
    pub fn skip(&mut self, level: u32)
        ensures { Moved self.old self.new (self.old.next + size (trees self.old level)) }
    {
        self.next = forest::skip(self.sheet, self.n, self.next, level);
    }

    // The trees deeper than `level` that stand side by side.
    pub fn roots(&self, level: u32) -> Roots<'a>
        ensures { roots_left result ≡ roots (trees self.now level) }
    {
        Roots {
            records: *self,
            level,
            given: None,
        }
    }

    // How many trees deeper than `level` stand side by side.
    pub fn count_trees(&self, level: u32) -> usize
        ensures { result ≡ count_trees (trees self.now level) }
    {
        forest::count_trees(self.sheet, self.n, self.next, level)
    }
}

// A tree: the record at its top, and the records from the one behind it on, so that those under it are next.
#[derive(Clone, Copy)]
pub struct Tree<'a> {
    pub root: Rec,
    pub kids: Records<'a>,
}

// The trees deeper than a level that stand side by side, one after another.
#[derive(Drop)]
pub struct Roots<'a> {
    records: Records<'a>,
    level: u32,
    // The level of the tree that was given last. The records under it are passed over only when the next tree is asked
    // for, so a caller that needs no more trees never goes over them.
    given: Option<u32>,
}

impl<'a> Iterator for Roots<'a> {
    ghost use Rattle.std.specs.Iterator.{item_count};
    ghost use Rattle.leaves.specs.Sheet.Roots.{roots_left, Passes};

    type Item = Tree<'a>;

    ghost next_gives = { Passes };

    ghost remaining = { item_count roots_left };

    fn next(&mut self) -> Option<Tree<'a>> {
        if let Some(level) = self.given.take() {
            self.records.skip(level);
        }
        let root = self.records.next_under(self.level)?;
        self.given = Some(root.level);
        Some(Tree {
            root,
            kids: self.records,
        })
    }
}
