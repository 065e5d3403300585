//! The dead nodes of a tree: those that no run visits, whatever the world is.
#![tactic(auto)]

mod guards;
pub mod laws;
mod marking;
mod reached;
mod rules;

pub use marking::dead;
