// Passes over bytes, a chunk of sixteen at a time. The tests of one chunk are joined without a branch, so that the
// compiler makes them one test of sixteen bytes; an iterator's `all` ends at the first byte that fails, with a branch.
ghost use Rattle.std.specs.Prelude.{◌≡◌, ◌+◌, ◌≤◌, Bool, ℕ, length, drop};
ghost use Rattle.leaves.specs.Text.Chunk.{is_ascii, is_neither, is_other, passes, chunk, Skipped};

pub(crate) const CHUNK: usize = 16;

// What the bytes that are passed over have in common.
pub(crate) trait ByteTest {
    ghost passing: { Self → ℕ → Bool };

    fn passes(&self, b: u8) -> bool
        ensures { result ≡ passing self.now b };
}

// The bytes of ASCII.
#[derive(Clone, Copy)]
pub(crate) struct Ascii;

impl ByteTest for Ascii {
    ghost passing = { λ _. is_ascii };

    fn passes(&self, b: u8) -> bool {
        b < 0x80
    }
}

// The bytes that are neither of two.
#[derive(Clone, Copy)]
pub(crate) struct Neither {
    pub a: u8,
    pub b: u8,
}

impl ByteTest for Neither {
    ghost passing = { λ t. is_neither t.a t.b };

    fn passes(&self, b: u8) -> bool {
        (b != self.a) & (b != self.b)
    }
}

// The bytes but one.
#[derive(Clone, Copy)]
pub(crate) struct Other {
    pub than: u8,
}

impl ByteTest for Other {
    ghost passing = { λ t. is_other t.than };

    fn passes(&self, b: u8) -> bool {
        b != self.than
    }
}

// The tests are joined by `&`: with `&&` each would be a branch, and not one test of four bytes at once.
#[tactic(auto, using(crate::proofs::text::ChunkLaws::four))]
fn four<T: ByteTest>(test: &T, s: &[u8], i: usize) -> bool
    requires { i + 4 ≤ length s.now }
    ensures { result ≡ passes (T.passing test.now) 4 (drop i s.now) }
{
    test.passes(s[i]) & test.passes(s[i + 1]) & test.passes(s[i + 2]) & test.passes(s[i + 3])
}

// Whether the bytes begin with sixteen that pass.
fn begins<T: ByteTest>(test: &T, s: &[u8]) -> bool
    ensures { result ≡ passes (T.passing test.now) chunk s.now }
{
    if s.len() < CHUNK {
        return false;
    }
    four(test, s, 0) & four(test, s, 4) & four(test, s, 8) & four(test, s, 12)
}

// What is left of the bytes behind chunks whose bytes all pass. How much is passed over is left open: only speed
// depends on it. What holds of the answer (`Skipped`) is that every byte before it passes.
pub(crate) fn skip_passing<'a, T: ByteTest>(s: &'a [u8], test: &T) -> &'a [u8]
    ensures { Skipped (T.passing test.now) s.now result.now }
{
    let mut rest = s;
    // not by `chunks_exact`: what is left is handed back, and the chunks that it went over would have to be cut off
    // afterwards
    while begins(test, rest) {
        rest = &rest[CHUNK..];
    }
    rest
}
