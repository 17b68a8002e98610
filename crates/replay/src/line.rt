// The line that says what was found in a file.
use crate::tally::Tally;
use std::io;

// A line: the name, records, answers compared, answers that differ.
pub fn write_line<R: Print>(rt: &R, name: &str, tally: Tally) -> io::Result<()> {
    println!(rt; "{name} {tally}")
}
