// Frontmatter's fence lines.
ghost use Rattle.std.specs.Prelude.{◌≡◌, Some};
ghost use Rattle.leaves.specs.Text.Fence.{fence_byte, holds_fence_line};
ghost use Rattle.leaves.specs.Text.FenceScans.{fence_from, fence_left};

use crate::text::bytes::{HYPHEN, PLUS};
use crate::text::{bytes, lines};

#[derive(Clone, Copy, PartialEq, Eq, Debug)]
pub enum FrontmatterKind {
    Yaml,
    Toml,
}

fn fence_byte(kind: FrontmatterKind) -> u8
    ensures { result ≡ fence_byte kind }
{
    match kind {
        FrontmatterKind::Yaml => HYPHEN,
        FrontmatterKind::Toml => PLUS,
    }
}

// How many bytes of a fence are still to come in the line, after `b`; none where the line is no fence.
#[tactic(auto, unfolding(crate::specs::Text::FenceScans::fence_left))]
fn fence_left(c: u8, left: Option<u8>, b: u8) -> Option<u8>
    ensures { result ≡ fence_left c left b }
{
    match left {
        Some(0) if bytes::is_blank_byte(b) => Some(0),
        Some(0) => None,
        Some(n) if b == c => Some(n - 1),
        _ => None,
    }
}

// Whether some line is a fence of the byte `c`. `left`: how many bytes of a fence are still to come in the line being
// read.
fn holds_fence_of(s: &[u8], c: u8) -> bool
    ensures { result ≡ fence_from c (Some 3) s.now }
{
    let mut left = Some(3);
    for (i, &b) in s.iter().enumerate() {
        if lines::is_cr_of_crlf(s, i) {
            continue;
        }
        if !bytes::is_line_ending_byte(b) {
            left = fence_left(c, left, b);
        } else if left == Some(0) {
            return true;
        } else {
            left = Some(3);
        }
    }
    left == Some(0)
}

// Whether some line is the fence of the kind; spaces and tabs may follow it.
#[tactic(auto, using(crate::proofs::text::FenceLaws::fences))]
pub fn holds_fence_line(s: &[u8], kind: FrontmatterKind) -> bool
    ensures { result ≡ holds_fence_line kind s.now }
{
    holds_fence_of(s, fence_byte(kind))
}
