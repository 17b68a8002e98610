// The leaves: what the rules ask of bytes and texts, the sheet's records, which sheets are refused, and the report.
// The definitions of each module are in the file of specs/ that has its name.
#![tactic(auto)]

pub mod refusal;
pub mod report;
pub mod sheet;
pub mod text;
