// Which sheets are refused, with which number and record.
mod fields;
mod groups;
pub mod judge;
pub mod limits;
pub mod places;
mod record;
mod tags;
pub mod verdict;
