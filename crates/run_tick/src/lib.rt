//! The tick of the engine: one visit of the root of a tree that stands in an arena.
#![tactic(auto)]

mod asking;
mod enter;
mod making_moves;
mod next_moves;
mod progress;
mod visiting;

pub use visiting::tick;
