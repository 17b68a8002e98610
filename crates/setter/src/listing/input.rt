// What the listing program reads, and how it reads. The program that replays stored answers reads so too.
ghost use Rattle.std.specs.Prelude.{◌<◌, ◌≤◌, length, take, IfOk};
ghost use Rattle.std.specs.Io.KnownBytes.{Consumes, IsAtEnd};

use crate::listing::film::MOST_INPUT;
use std::io;
use std::io::{ErrorKind, Read};

// One byte more than the largest film has. Of a longer film no more need be read: what is printed for these bytes is
// what would be printed for all of it, as `listing-cut` proves.
pub const INPUT_BYTES: usize = MOST_INPUT + 1;

// Reads until the buffer is full or the input's end is reached, and answers how many bytes were read: they stand at the
// buffer's front.
pub fn read_full<R: Read>(from: &mut R, buffer: &mut [u8]) -> io::Result<usize>
    ensures within { IfOk result (λ n. n ≤ length buffer.new) }
    ensures bytes { IfOk result
        (λ n. Consumes (R.remaining from.old) (R.remaining from.new) (take n buffer.new)) }
    ensures end { IfOk result (λ n. n < length buffer.new → IsAtEnd (R.remaining from.new)) }
{
    let mut at = 0;
    // a `for`, so that each run ends: nothing says how often a reading is interrupted
    for _ in 0..u64::MAX {
        if at == buffer.len() {
            return Ok(at);
        }
        match from.read(&mut buffer[at..]) {
            Ok(0) => return Ok(at),
            Ok(n) => at += n,
            Err(error) => {
                if error.kind() != ErrorKind::Interrupted {
                    return Err(error);
                }
            }
        }
    }
    // No input is read so often.
    Err(io::Error::from(ErrorKind::TimedOut))
}
