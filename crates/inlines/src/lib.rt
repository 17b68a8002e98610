// The inline walk, and the rules of one inline and of inlines side by side. The definitions of each module are in the
// file of specs/ with its name.
#![tactic(auto)]

pub mod attribute;
mod content;
pub mod depth;
mod link;
mod literal;
mod node;
pub mod nodes;
mod own;
pub mod single;
mod values;
