//! The program over the outside that it is lent: `bt` runs the command that words are, and each of
//! its clauses is a promise that the program makes.
#![tactic(auto)]

mod boxes;
mod headline;
mod host_plans;
pub mod laws;
mod roster;

pub use headline::bt;
pub use host_plans::plan_over;
pub use roster::add_driver;
