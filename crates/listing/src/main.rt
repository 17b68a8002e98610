// Reads a film on standard input and prints what the check and the setting machine find in it. The promise of `list`
// says which bytes are printed for those that are read.
#![tactic(auto)]

use setter::listing::input::{INPUT_BYTES, read_full};
use setter::listing::print::OUTPUT_BYTES;
use setter::listing::program::list;
use std::io;
use std::io::Write;

// `N` bytes of 0. It promises nothing, so that no proof computes the array.
fn bytes<const N: usize>() -> [u8; N] {
    [0u8; N]
}

fn main(rt: HostRuntime) -> io::Result<()> {
    let mut input = bytes::<INPUT_BYTES>();
    let mut output = bytes::<OUTPUT_BYTES>();
    let n = read_full(&mut rt.stdin(), &mut input)?;
    let m = list(&input[..n], &mut output);
    rt.stdout().write_all(&output[..m])
}
