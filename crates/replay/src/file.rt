// A file of stored answers, replayed record by record.
ghost use Rattle.std.specs.Prelude.{◌≡◌, ◌≤◌, ◌<◌, IfOk, IfSome, length, take};
ghost use Rattle.std.specs.Io.KnownBytes.{Consumes, IsAtEnd};
ghost use Rattle.replay.specs.File.{Stepped, Found};
ghost use Rattle.replay.specs.Tally.{together};

use crate::films;
use crate::format::Format;
use crate::line::write_line;
use crate::tally::Tally;
use setter::listing::input::read_full;
use std::io::{ErrorKind, Read};
use std::ops::ControlFlow;
use std::rt::Files;
use std::{fs, io};

// Far more records than any file has.
const RECORDS: usize = 0x10_0000;

// A record that cannot be replayed: the file ends inside it, there is no room for it, or it cannot be read.
#[derive(Clone, Copy)]
struct Broken;

impl From<io::Error> for Broken {
    fn from(_error: io::Error) -> Broken {
        Broken
    }
}

// Room for a record: a film's is the longest. The function promises nothing, so that no proof computes the array.
fn room() -> [u8; films::MOST] {
    [0u8; films::MOST]
}

// Reads once, and again where the reading was interrupted, and answers how many bytes were read: they stand at the
// buffer's front. The answer is 0 only at the file's end, or where the buffer has no room.
fn read_once<R: Read>(file: &mut R, buffer: &mut [u8]) -> io::Result<usize>
    ensures within { IfOk result (λ n. n ≤ length buffer.new) }
    ensures bytes { IfOk result
        (λ n. Consumes (R.remaining file.old) (R.remaining file.new) (take n buffer.new)) }
    ensures end { IfOk result
        (λ n. n ≡ 0 → 0 < length buffer.new → IsAtEnd (R.remaining file.new)) }
{
    // a `for`, so that each run ends: nothing says how often a reading is interrupted
    for _ in 0..u64::MAX {
        match file.read(buffer) {
            Ok(n) => return Ok(n),
            Err(error) => {
                if error.kind() != ErrorKind::Interrupted {
                    return Err(error);
                }
            }
        }
    }
    // No file is read so often.
    Err(io::Error::from(ErrorKind::TimedOut))
}

// Reads the next record into the front of the buffer, and answers how many bytes it has; None at the file's end. The
// first reading of its head is apart: a file that cannot be read where a record would begin ends there, and one that
// cannot be read inside a record is a difference. One reading mostly takes the whole head; each is a system call.
fn read_record<R: Read, F: Format>(
    file: &mut R,
    format: &F,
    buffer: &mut [u8],
) -> Result<Option<usize>, Broken>
    ensures { IfOk result (λ n. IfSome n (λ n. n ≤ length buffer.new)) }
{
    let head = format.head();
    if buffer.len() < head {
        return Err(Broken);
    }
    let first = match read_once(file, &mut buffer[..head]) {
        Ok(0) | Err(_) => return Ok(None),
        Ok(n) => n,
    };
    if read_full(file, &mut buffer[first..head])? < head - first {
        return Err(Broken);
    }
    let behind = format.behind(&buffer[..head]);
    let end = head + behind;
    if buffer.len() < end {
        return Err(Broken);
    }
    if read_full(file, &mut buffer[head..end])? < behind {
        return Err(Broken);
    }
    Ok(Some(end))
}

// Replays the next record, behind which another may follow. Or none follows: the file is at its end, or the record
// cannot be replayed, which counts as a difference.
fn replay_next<R: Read, F: Format>(
    file: &mut R,
    format: &F,
    buffer: &mut [u8],
    tally: Tally,
) -> ControlFlow<Tally, Tally>
    ensures { Stepped (F.replayed format.now) tally result }
{
    match read_record(file, format, buffer) {
        Ok(Some(n)) => ControlFlow::Continue(format.replay(&buffer[..n], tally)),
        Ok(None) => ControlFlow::Break(tally),
        Err(_) => ControlFlow::Break(tally.differs()),
    }
}

// Replays the records of an open file. A record that cannot be replayed is the last, and a file that does not end
// within RECORDS records counts as a difference.
fn replay_opened<R: Read, F: Format>(file: &mut R, format: &F) -> Tally
    ensures { Found (F.replayed format.now) result }
{
    let mut buffer = room();
    let mut tally = Tally::empty();
    // a `for`, so that each run ends: a file does not say how many records it has
    for _ in 0..RECORDS {
        match replay_next(file, format, &mut buffer, tally) {
            ControlFlow::Continue(after) => tally = after,
            ControlFlow::Break(last) => return last,
        }
    }
    tally.differs()
}

// Answers what is found in a file. A file that could not be opened counts as a difference.
pub fn replay<R: Read + Drop, F: Format>(file: Option<R>, format: &F) -> Tally
    ensures { Found (F.replayed format.now) result }
{
    match file {
        Some(mut file) => replay_opened(&mut file, format),
        None => Tally::empty().differs(),
    }
}

// Opens a file; where it cannot be opened, a line of standard error says why, if it can be written.
pub fn open<R: Files + Eprint>(rt: &R, name: &str) -> Option<R::File> {
    match fs::open(rt, name) {
        Ok(file) => Some(file),
        Err(error) => {
            let _ = eprintln!(rt; "{name}: {error}");
            None
        }
    }
}

// Writes the line of a file that was replayed, and adds what was found to the total. A line that cannot be written
// changes no count.
pub fn close<R: Print>(rt: &R, name: &str, found: Tally, total: Tally) -> Tally
    ensures { result ≡ together total found }
{
    let _ = write_line(rt, name, found);
    total.with(found)
}
