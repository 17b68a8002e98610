// White space at the ends of a text.
ghost use Rattle.std.specs.Prelude.{◌≡◌};
ghost use Rattle.leaves.specs.Text.ScalarScans.{BeginsScalar};
ghost use Rattle.leaves.specs.Text.White.{is_white, starts_with_white, ends_with_white};

use crate::text::scalars::Character;

const REPLACEMENT: u32 = 0xFFFD;

#[tactic(auto, unfolding(crate::specs::Text::White::is_white))]
fn is_white(c: u32) -> bool
    ensures { result ≡ is_white c }
{
    matches!(
        c,
        0x0009..=0x000D
            | 0x0020
            | 0x0085
            | 0x00A0
            | 0x1680
            | 0x2000..=0x200A
            | 0x2028
            | 0x2029
            | 0x202F
            | 0x205F
            | 0x3000
    )
}

pub fn starts_with_white(s: &[u8]) -> bool
    ensures { result ≡ starts_with_white s.now }
{
    let mut character = Character::new();
    for &b in s {
        if character.expected.breaks_character(b) {
            return false;
        }
        character = character.after(b);
        if character.is_whole() {
            return is_white(character.value);
        }
    }
    false
}

// Where the last character begins: at the last byte that can begin one, or at the start.
fn last_start(s: &[u8]) -> usize
    ensures { BeginsScalar s.now result }
{
    s.iter()
        .rposition(|b| !matches!(*b, 0x80..=0xBF))
        .unwrap_or(0)
}

// The same as `ends_with_white`, but reads every byte. `last`: the last scalar value so far.
fn last_is_white(s: &[u8]) -> bool
    ensures { result ≡ ends_with_white s.now }
{
    let mut character = Character::new();
    let mut last = REPLACEMENT;
    for &b in s {
        let broken = character.expected.breaks_character(b);
        character = character.after(b);
        if character.is_whole() {
            last = character.value;
        } else if broken {
            last = REPLACEMENT;
        }
    }
    character.is_whole() && is_white(last)
}

// Reads the bytes of the last character only.
#[tactic(auto, using(crate::proofs::text::WhiteLaws::white_ends))]
pub fn ends_with_white(s: &[u8]) -> bool
    ensures { result ≡ ends_with_white s.now }
{
    last_is_white(&s[last_start(s)..])
}
