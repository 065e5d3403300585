//! What watches a run for expectations: it sees block after block, keeps no trace, and takes memory for the expectations, the
//! facts and the leaves that are held alone.
#![tactic(auto)]

mod facts;
mod held;
pub mod laws;
mod memo;
mod notes;
mod testing;
mod watching;

pub use watching::{Watched, Watching, watching_of};
