// Whether two texts are the same bytes.
ghost use Rattle.std.specs.Prelude.{◌≡◌};
ghost use Rattle.leaves.specs.Text.Same.{same_bytes};

#[tactic(auto, using(crate::proofs::text::PairLaws::pairs))]
pub fn same_bytes(a: &[u8], b: &[u8]) -> bool
    ensures { result ≡ same_bytes a.now b.now }
{
    a == b
}
