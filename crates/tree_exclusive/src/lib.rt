//! Which leaves of a tree can be held together, whatever the world is.
#![tactic(auto)]

pub mod laws;
mod leaves;
mod meetings;
mod pairs;
mod steps;

pub use leaves::missing_leaf;
pub use pairs::{Found, find_pairs};
