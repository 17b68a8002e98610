// The block walk, up to the whole list, and the check. The definitions of each module are in the file of specs/ with
// its name.
#![tactic(auto)]

pub mod answer;
pub mod before;
mod block;
pub mod check;
mod footnote;
mod frontmatter;
mod heads;
mod holds;
mod html;
mod item;
mod label;
mod list;
mod number;
mod paragraph;
mod table;
mod walk;
