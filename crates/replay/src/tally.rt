// How many records were read, how many answers were compared and how many differ.
ghost use Rattle.std.specs.Prelude.{◌≡◌};
ghost use Rattle.replay.specs.Tally.{sum_of, differences_of};
ghost use Rattle.replay.specs.Tally.{no_records, recorded, differing, comparing, together};

use std::fmt;

const MOST: u64 = 0x1000_0000_0000_0000;

#[derive(Clone, Copy, Debug, PartialEq, Eq)]
pub struct Tally {
    pub records: u64,
    pub compared: u64,
    pub differ: u64,
}

// A sum of two counts, and MOST where one of them is MOST or more: so no sum wraps. No file comes near MOST.
#[tactic(auto, unfolding(crate::specs::Tally::sum_of))]
fn sum(a: u64, b: u64) -> u64
    ensures { result ≡ sum_of a b }
{
    if a.max(b) < MOST { a + b } else { MOST }
}

// How many differences a comparison adds.
#[tactic(auto, unfolding(crate::specs::Tally::differences_of))]
fn differences(same: bool) -> u64
    ensures { result ≡ differences_of same }
{
    u64::from(!same)
}

impl Tally {
    pub fn empty() -> Self
        ensures { result ≡ no_records }
    {
        Tally {
            records: 0,
            compared: 0,
            differ: 0,
        }
    }

    #[tactic(auto, unfolding(crate::specs::Tally::recorded))]
    pub fn record(self) -> Self
        ensures { result ≡ recorded self }
    {
        Tally {
            records: sum(self.records, 1),
            ..self
        }
    }

    #[tactic(auto, unfolding(crate::specs::Tally::differing))]
    pub fn differs(self) -> Self
        ensures { result ≡ differing self }
    {
        Tally {
            differ: sum(self.differ, 1),
            ..self
        }
    }

    #[tactic(auto, unfolding(crate::specs::Tally::comparing))]
    pub fn compare(self, same: bool) -> Self
        ensures { result ≡ comparing same self }
    {
        Tally {
            compared: sum(self.compared, 1),
            differ: sum(self.differ, differences(same)),
            ..self
        }
    }

    #[tactic(auto, unfolding(crate::specs::Tally::together))]
    pub fn with(self, other: Tally) -> Self
        ensures { result ≡ together self other }
    {
        Tally {
            records: sum(self.records, other.records),
            compared: sum(self.compared, other.compared),
            differ: sum(self.differ, other.differ),
        }
    }
}

// The three counts of a line, a space between them.
impl fmt::Display for Tally {
    fn fmt<W: fmt::Write>(&self, f: &mut fmt::Formatter<W>) -> fmt::Result {
        write!(f, "{} {} {}", self.records, self.compared, self.differ)
    }
}
