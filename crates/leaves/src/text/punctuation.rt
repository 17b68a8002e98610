// ASCII punctuation.
ghost use Rattle.std.specs.Prelude.{◌≡◌};
ghost use Rattle.leaves.specs.Text.Punctuation.{is_ascii_punctuation};

pub fn is_ascii_punctuation(scalar: u32) -> bool
    ensures { result ≡ is_ascii_punctuation scalar }
{
    matches!(scalar, 0x21..=0x2F | 0x3A..=0x40 | 0x5B..=0x60 | 0x7B..=0x7E)
}
