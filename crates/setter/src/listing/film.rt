// A film: its sheet and its text, or why it is refused.
ghost use Rattle.std.specs.Prelude.{◌≡◌, ◌≤◌};
ghost use Rattle.setter.specs.Listing.Film.{most_film_records, text_behind, Reads, ReadsCounts};

use crate::listing::film_answer::FilmError;
use crate::listing::records::{RECORD_BYTES, behind, read_records};
use leaves::sheet::records::RECORD_WORDS;
use leaves::text::columns::read_line;
use leaves::text::field::PLACES;

// How many bytes the first line has: two counts and an LF.
const COUNT_BYTES: usize = 2 * PLACES + 1;

// The most records of a film, and the most bytes of its text.
pub(crate) const MOST_FILM_RECORDS: usize = 512;

const MOST_FILM_BYTES: usize = 16384;

// The words of the largest sheet of a film.
pub(crate) const SHEET_WORDS: usize = MOST_FILM_RECORDS * RECORD_WORDS;

// How many bytes the largest film has.
pub(crate) const MOST_INPUT: usize = COUNT_BYTES
    + MOST_FILM_RECORDS * RECORD_BYTES
    + MOST_FILM_BYTES;

// The text of a film of `n` records: all that stands behind them.
#[tactic(auto, unfolding(crate::specs::Listing::Film::text_behind))]
pub(crate) fn text_behind(s: &[u8], n: usize) -> &[u8]
    requires { n ≤ most_film_records }
    ensures { result.now ≡ text_behind n s.now }
{
    behind(s, COUNT_BYTES + n * RECORD_BYTES)
}

// The two counts of the first line: records, and bytes of the text.
#[tactic(auto, unfolding(crate::specs::Listing::Film::film_of))]
fn read_counts(s: &[u8]) -> Result<(usize, usize), FilmError>
    ensures { ReadsCounts s.now result }
{
    let mut counts = [0u32; 2];
    if !read_line(s, &mut counts) {
        return Err(FilmError::BadColumn);
    }
    let records = counts[0] as usize;
    let bytes = counts[1] as usize;
    if MOST_FILM_RECORDS < records {
        return Err(FilmError::BigFilm);
    }
    if MOST_FILM_BYTES < bytes {
        return Err(FilmError::BigFilm);
    }
    Ok((records, bytes))
}

// Reads a film's sheet into the words where the counts are good. Answers how many records the film has, or why it is
// refused.
#[tactic(auto, unfolding(crate::specs::Listing::Film::film_of, crate::specs::Listing::Film::filled_sheet, crate::specs::Listing::Film::film_sheet))]
pub(crate) fn read_film(s: &[u8], sheet: &mut [u32; SHEET_WORDS]) -> Result<usize, FilmError>
    ensures { Reads s.now sheet.old sheet.new result }
{
    let (records, bytes) = read_counts(s)?;
    if !read_records(behind(s, COUNT_BYTES), records, sheet) {
        return Err(FilmError::BadColumn);
    }
    if text_behind(s, records).len() != bytes {
        return Err(FilmError::BadColumn);
    }
    Ok(records)
}
