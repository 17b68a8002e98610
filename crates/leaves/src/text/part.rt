// The part of a text that a record names.
ghost use Rattle.std.specs.Prelude.{◌≡◌};
ghost use Rattle.leaves.specs.Text.Part.{part_of};

// `len` bytes of the caller's own slice, from `start` on; none where they do not all lie inside the text.
#[tactic(auto, unfolding(crate::specs::Text::Part::part_of))]
pub fn part(text: &[u8], start: usize, len: usize) -> &[u8]
    ensures { result.now ≡ part_of text.now start len }
{
    if text.len() < start || text.len() - start < len {
        return &[];
    }
    &text[start..start + len]
}
