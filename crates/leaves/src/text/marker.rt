// The marker that a list is written with.
ghost use Rattle.std.specs.Prelude.{◌≡◌};
ghost use Rattle.leaves.specs.Text.Marker.{written_marker};

// The byte that a list's items are written with, by the list's A and B as the sheet has them.
#[tactic(auto, unfolding(crate::specs::Text::Marker::written_marker))]
pub fn written_marker(ordered: u32, delimiter: u32) -> u32
    ensures { result ≡ written_marker ordered delimiter }
{
    match (ordered, delimiter) {
        (1, 4) => 0x29,
        (1, _) => 0x2E,
        (_, 1) => 0x2A,
        (_, 2) => 0x2B,
        _ => 0x2D,
    }
}
