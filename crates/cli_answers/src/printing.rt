//! What a command prints by the sink alone: a tree with its counts, its dead nodes, and the world script that a
//! ground file stands for.

mod dead_nodes;
mod exclusive;
mod grounding;
mod nodes;
mod printing;

pub use exclusive::print_exclusive;
pub use grounding::print_ground;
pub use printing::{print_made, print_tree};
