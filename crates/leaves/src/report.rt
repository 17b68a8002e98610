// The report: its entries, and the rules that they name.
pub mod entries;
pub mod rules;
