//! The conflicts of a plan tree, and how a new sequence is raised before what it undoes.
#![tactic(auto)]

mod conflicts;
mod heads;
mod raising;
mod reads;

pub use conflicts::{conflict, has_conflict};
pub use raising::raise;
