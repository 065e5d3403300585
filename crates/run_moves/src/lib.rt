//! The next move of a control node, a decorator or a SubTree node: which children are reset, and which child is visited
//! then or which answer is given.
#![tactic(auto)]

mod choices;
mod control;
pub mod decorators;
pub mod laws;
mod parallels;
mod pipelines;
mod recoveries;
mod robins;
mod rounds;
mod steps;
pub mod whole_visits;

pub use control::{control_next, goes_to_next};
pub use decorators::decorator_next;
pub use steps::{over, pass, reset_and_give, reset_and_visit, visit};
