// What a format says of a file: how long a record is, and how it is replayed.
ghost use Rattle.std.specs.Prelude.{ℕ, ◌≡◌, ◌≤◌, ◌<◌, ◌^◌, List};
ghost use Rattle.replay.specs.declared.tally.Tally.{Tally};

use crate::tally::Tally;

pub trait Format {
    // How many bytes the head of a record has. The head says how long the record is.
    ghost head_bytes: { ℕ };

    // How many bytes stand behind the head of a record.
    ghost behind_of: { List ℕ → ℕ };

    // The tally after a record.
    ghost replayed: { Self → List ℕ → Tally → Tally };

    fn head(&self) -> usize
        ensures exact { result ≡ head_bytes }
        ensures bound { result ≤ 28 };

    fn behind(&self, head: &[u8]) -> usize
        ensures exact { result ≡ behind_of head.now }
        ensures bound { result < 2 ^ 33 };

    // Replays a record.
    fn replay(&self, r: &[u8], tally: Tally) -> Tally
        ensures { result ≡ replayed self.now r.now tally };
}
