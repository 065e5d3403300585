//! The bytes of a tree file as a tree.
#![tactic(auto)]

mod tree_file;

pub use tree_file::parse_tree;
