//! Planning: a tree is run in its modelled world, and grows where it failed, until it reaches the goals.
#![tactic(auto)]

mod failing;
mod growing;
pub mod laws;
mod planning;
mod settling;
mod task;

pub use planning::plan;
