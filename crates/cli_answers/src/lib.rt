//! What a command does once its files are read: it prints, runs a tree in a world on its course, or plans.
#![tactic(auto)]

mod courses;
mod planning;
mod printing;

pub use courses::{join_and_expect, join_and_run};
pub use planning::plan_and_print;
pub use printing::{print_exclusive, print_ground, print_made, print_tree};
