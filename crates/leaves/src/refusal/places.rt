// Where a record may stand under its parent.
ghost use Rattle.std.specs.Prelude.{◌≡◌, true, false};
ghost use Rattle.leaves.specs.Sheet.Kinds.{is_kind};
ghost use Rattle.leaves.specs.Refusal.Groups.{parent_group};
ghost use Rattle.leaves.specs.Refusal.KindGroups.{kind_groups};
ghost use Rattle.leaves.specs.Refusal.PlaceTable.{place_table};
ghost use Rattle.leaves.specs.Refusal.Places.{holds, place_in, place_of, before_children, after_child, misplaced};

use crate::refusal::groups;
use crate::refusal::groups::{PARENT_OF_TAGS_AND_BLOCKS, PARENT_OF_TAGS_AND_INLINES};
use crate::sheet::kinds;

// The allowed places: a row for each group of parents, by what it holds; a column for each group of children, in the
// order block, item, row, cell, HTML tag, attribute, inline. 0 is for not allowed, and no Option: places are only
// compared, and 0 is below each of them.
const PLACES: [[u32; 7]; 10] = [
    // blocks
    [1, 0, 0, 0, 0, 0, 0],
    // items
    [0, 1, 0, 0, 0, 0, 0],
    // rows
    [0, 0, 1, 0, 0, 0, 0],
    // cells
    [0, 0, 0, 1, 0, 0, 0],
    // inlines
    [0, 0, 0, 0, 0, 0, 1],
    // attributes, inlines
    [0, 0, 0, 0, 0, 1, 2],
    // attributes, inlines, blocks
    [3, 0, 0, 0, 0, 1, 2],
    // two tags, blocks
    [2, 0, 0, 0, 1, 0, 0],
    // two tags, inlines
    [0, 0, 0, 0, 1, 0, 2],
    // nothing
    [0, 0, 0, 0, 0, 0, 0],
];

// The two tables that say where a record may stand. A constant array is copied at each mention, so `judge_records`
// makes them once and lends them.
#[derive(Drop)]
pub(crate) struct Tables {
    places: [[u32; 7]; 10],
    groups: [[u32; 2]; 54],
    ghost are_tables: { (places ≡ place_table) × (groups ≡ kind_groups) },
}

impl Tables {
    #[tactic(auto, unfolding(crate::specs::Refusal::PlaceTable::place_table))]
    pub(crate) fn new() -> Tables {
        Tables {
            places: PLACES,
            groups: groups::groups(),
        }
    }

    #[tactic(auto, using(crate::proofs::refusal::PlaceLaws::at_place))]
    fn place_at(&self, group: u32, column: u32) -> u32
        ensures { result ≡ place_in 1 (holds group) column }
    {
        if 10 <= group || 7 <= column {
            return 0;
        }
        self.places[group as usize][column as usize]
    }

    // The place of a kind under a group of parents; 0 where it is not allowed there. What reads the tables by a kind
    // asks that the kind is a known one, which `judge` has tested. A type of known kinds would be made for these calls
    // alone, and taken apart at once.
    #[tactic(auto, unfolding(crate::specs::Refusal::Places::place_of))]
    fn place_of(&self, group: u32, kind: u32) -> u32
        requires { is_kind kind ≡ true }
        ensures { result ≡ place_of group kind }
    {
        self.place_at(group, groups::child_group(&self.groups, kind))
    }

    // What a record of the kind may hold.
    pub(crate) fn parent_group(&self, kind: u32, a: u32) -> u32
        requires { is_kind kind ≡ true }
        ensures { result ≡ parent_group kind a }
    {
        groups::parent_group(&self.groups, kind, a)
    }
}

// What stands before a record under its parent: the parent's group, the place of the child before it (0, which is below
// each place, where there is none), and how many HTML tags. A group is a number and no enum, since the tables give it
// and are read by it.
#[derive(Clone, Copy, PartialEq, Eq, Debug)]
pub struct Open {
    pub group: u32,
    pub stage: u32,
    pub tags: u32,
}

impl Open {
    // Under a parent, before its first child.
    #[tactic(auto, unfolding(crate::specs::Refusal::Places::before_children))]
    pub(crate) fn before_children(group: u32) -> Open
        ensures { result ≡ before_children group }
    {
        Open {
            group,
            stage: 0,
            tags: 0,
        }
    }

    // The same after one more child, of the kind.
    #[tactic(auto, unfolding(crate::specs::Refusal::Places::after_child))]
    pub(crate) fn after_child(self, tables: &Tables, kind: u32) -> Open
        requires { (is_kind kind ≡ true) × (misplaced self kind ≡ false) }
        ensures { result ≡ after_child self kind }
    {
        let stage = tables.place_of(self.group, kind);
        if kind == kinds::HTML_TAG {
            Open {
                stage,
                tags: self.tags + 1,
                ..self
            }
        } else {
            Open { stage, ..self }
        }
    }

    // Whether the kind is not allowed there or is out of order, is a third HTML tag, or is content before the second.
    #[tactic(auto, unfolding(crate::specs::Refusal::Places::misplaced))]
    pub(crate) fn misplaced(self, tables: &Tables, kind: u32) -> bool
        requires { is_kind kind ≡ true }
        ensures { result ≡ misplaced self kind }
    {
        let place = tables.place_of(self.group, kind);
        let container = matches!(
            self.group,
            PARENT_OF_TAGS_AND_BLOCKS | PARENT_OF_TAGS_AND_INLINES
        );
        let tag = kind == kinds::HTML_TAG;
        place == 0
            || place < self.stage
            || (tag && 2 <= self.tags)
            || (container && !tag && self.tags < 2)
    }
}
