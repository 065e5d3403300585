//! The run of a tree in the modelled world, and what decides it.
#![tactic(auto)]

mod blocks;
mod goals;
mod modelling;
mod task;
mod ticking;
mod trying;

pub use blocks::Blocks;
pub use modelling::modelled;
pub use task::{Task, task_of};
pub use trying::{Tried, run_tree};
