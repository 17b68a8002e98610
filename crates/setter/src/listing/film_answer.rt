// Why a film is refused, with its number.
ghost use Rattle.std.specs.Prelude.{◌≡◌, Err};
ghost use Rattle.setter.specs.Listing.FilmAnswer.{film_answer};

// Why a film is refused.
#[derive(Clone, Copy, Debug, PartialEq, Eq)]
pub(crate) enum FilmError {
    BadColumn = 13,
    BigFilm = 14,
}

impl FilmError {
    // Document 01's number of the refusal.
    pub(crate) fn number(self) -> u32
        ensures { result ≡ (film_answer (Err self)).number }
    {
        self as u32
    }
}
