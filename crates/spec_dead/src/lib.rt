//! Definitions: which nodes of a tree are dead.
#![tactic(auto)]

mod answers;
mod guarding;

pub use answers::Answers;
pub use guarding::Guarding;
