// What the machine keeps of each open record, and how it changes as records open and close.
ghost use Rattle.std.specs.Prelude.{◌≡◌, ◌≤◌, []};
ghost use Rattle.setter.specs.Steps.{the_sheet};
ghost use Rattle.setter.specs.Kept.{kept_of, opened_in, after_kid, next_marker, start_with, most_kids};

use leaves::sheet::records::Rec;
use leaves::sheet::{classes, empty, kinds};
use leaves::text::marker::written_marker;

// What the machine keeps of an open record. The first five fields are of the record and of what is open around it, the
// others of its children that have closed. Three fields have 0 for none, and no Option: `nearest` and `marker` are only
// compared with values that are not 0, and `columns` is asked only under a table.
#[derive(Clone, Copy)]
pub(crate) struct Kept {
    // the record's number in the sheet, from 0
    pub at: u32,
    // A of the nearest open table; 0 where there is none
    pub columns: u32,
    // the kind of the nearest open record that is no inline; `NO_KIND` for the sheet
    pub nearest: u32,
    // the record is a link or link reference, or stands under one
    pub linked: bool,
    // the record's A is 1: a list is ordered
    pub ordered: bool,
    // how many children have closed
    pub kids: u32,
    // the newest child is an inline break
    pub broke: bool,
    // the written marker of the newest child that is no blank line, where that is a list; else 0
    pub marker: u32,
    // the children are nothing but empty texts
    pub empty: bool,
    // of an ordered list, its start number once an item has closed: the first item's number, or 1 without one; 1 before
    pub start_number: u32,
}

// The marker kept once record r has closed: for a list its written one, for a blank line the one before, and 0 for any
// other kind.
fn next_marker(r: Rec, before: u32) -> u32
    ensures { result ≡ next_marker r before }
{
    match r.kind {
        kinds::LIST => written_marker(r.a, r.b),
        kinds::BLANK_LINE => before,
        _ => 0,
    }
}

impl Kept {
    // What is kept of the sheet itself, before anything opens.
    #[tactic(auto, unfolding(crate::specs::Kept::kept_of, crate::specs::Kept::marker_behind, crate::specs::Seen::columns, crate::specs::Seen::nearest, crate::specs::Seen::in_link, crate::specs::Seen::only_empty, crate::specs::Kept::start_behind))]
    pub(crate) fn the_sheet() -> Kept
        ensures { result ≡ kept_of the_sheet [] }
    {
        Kept {
            at: 0,
            columns: 0,
            nearest: kinds::NO_KIND,
            linked: false,
            ordered: false,
            kids: 0,
            broke: false,
            marker: 0,
            empty: true,
            start_number: 1,
        }
    }

    // What is kept of record `i`, which is r, as it opens under the record of which this is kept.
    #[tactic(auto, unfolding(crate::specs::Kept::opened_in, crate::specs::Kept::kept_of, crate::specs::Kept::marker_behind, crate::specs::Seen::only_empty, crate::specs::Kept::start_behind))]
    pub(crate) fn opened(self, i: u32, r: Rec) -> Kept
        ensures { result ≡ opened_in i r self }
    {
        Kept {
            at: i,
            columns: if r.kind == kinds::TABLE {
                r.a
            } else {
                self.columns
            },
            nearest: if kinds::is_inline(r.kind) {
                self.nearest
            } else {
                r.kind
            },
            linked: matches!(r.kind, kinds::LINK | kinds::LINK_REFERENCE) || self.linked,
            ordered: r.a == 1,
            ..Kept::the_sheet()
        }
    }

    // The start number of an ordered list of which this is kept, where r is its next item.
    pub(crate) fn start_with(self, r: Rec) -> u32
        ensures { result ≡ start_with r self }
    {
        if self.kids == 0 && r.b == 1 {
            r.c
        } else {
            self.start_number
        }
    }

    // What is kept of a record once its child r has closed; this was kept before.
    #[tactic(auto, unfolding(crate::specs::Kept::after_kid))]
    pub(crate) fn after_kid(self, r: Rec) -> Kept
        requires { self.kids ≤ most_kids }
        ensures { result ≡ after_kid self r }
    {
        Kept {
            kids: self.kids + 1,
            broke: classes::is_break(r.kind),
            marker: next_marker(r, self.marker),
            empty: empty::is_empty_text(r) && self.empty,
            start_number: self.start_with(r),
            ..self
        }
    }
}
