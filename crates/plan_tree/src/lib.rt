//! What planning knows of a world, and the plan tree: a tree of conditions and actions that grows where a condition is
//! expanded. It is one slab of nodes that is edited in place.
#![tactic(auto)]

mod achievers;
mod domain;
mod expanding;
mod inserting;
mod node;
mod numbers;
mod planned;
mod renewing;
mod rule;
mod texts;
mod tree;

pub use domain::{achieves, templates, test_of, threatens};
pub use expanding::{ExpandFault, expand, has_untried};
pub use node::Node;
pub use numbers::{key_of, part_of, row_of};
pub use planned::tree_of;
pub use renewing::tree_from;
pub use rule::Rule;
pub use tree::{PlanTree, plan_tree_of};
