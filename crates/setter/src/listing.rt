// The listing program's work: from what it reads to what it prints.
mod film;
mod film_answer;
pub mod input;
pub mod print;
pub mod program;
mod records;
