//! What the rows of tests are run on: files in memory, and the drivers of the modelled world.
#![tactic(auto)]

mod ending;
mod files;
mod rows;

pub use ending::{Ending, answer, answer_with};
pub use files::{joined, shelf_of, shelf_of_rows, shelf_with_rules, tree_of, world_of};
pub use rows::{TICK, answered, given, given_by, ran, run, run_with};
