//! What a command is lent of the outside, why it has no output of its own, and the line that says so.
#![tactic(auto)]

mod lent;
mod line;
mod refusal;

pub use lent::Outside;
pub use line::{join_refusal, kind_word, tree_refusal, world_refusal};
pub use refusal::{Refusal, write_refusal};
