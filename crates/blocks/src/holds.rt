// Which kinds of block hold blocks.
ghost use Rattle.std.specs.Prelude.{◌≡◌};
ghost use Rattle.blocks.specs.Holds.{holds_blocks};

use leaves::sheet::kinds;

#[tactic(auto, unfolding(crate::specs::Holds::holds_blocks))]
pub(crate) fn holds_blocks(kind: u32, a: u32) -> bool
    ensures { result ≡ holds_blocks kind a }
{
    match kind {
        kinds::BLOCK_QUOTE
        | kinds::ALERT
        | kinds::FOOTNOTE_DEFINITION
        | kinds::CONTAINER_DIRECTIVE => true,
        kinds::HTML_CONTAINER => a == 0,
        _ => false,
    }
}
