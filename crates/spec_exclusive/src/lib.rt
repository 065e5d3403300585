//! Definitions: which leaves of a tree can be held together.
#![tactic(auto)]

mod meeting;
mod pair;

pub use meeting::Meeting;
pub use pair::Pair;
