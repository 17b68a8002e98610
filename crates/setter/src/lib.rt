// The setting machine; the check and the machine together, which are proved to agree; the functions exported to C; and
// the listing program's work. The definitions of a module are in the file of specs/ that has its name.
#![tactic(auto)]

pub mod answer;
pub mod both;
pub mod exports;
mod kept;
pub mod listing;
pub mod machine;
mod marks;
mod stops;
