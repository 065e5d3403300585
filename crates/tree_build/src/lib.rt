//! From the element of a tree file to the tree.
#![tactic(auto)]

mod building;
mod content;
mod contents;
mod head;
mod ports;
mod rules;
mod scripts;
mod tree;
mod trees;
mod version;
mod working;

pub use building::build;
pub use scripts::script;
pub use working::{is_within_work, work};
