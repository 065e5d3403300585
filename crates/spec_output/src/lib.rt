//! Definitions: the lines of a trace, and what is counted of a run.
#![tactic(auto)]

mod counts;

pub use counts::Counts;
