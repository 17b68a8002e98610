// The sheet: its records, their kinds, and the texts that they name.
pub mod classes;
pub mod empty;
pub mod forest;
pub mod kinds;
pub mod records;
pub mod texts;
pub mod trees;
