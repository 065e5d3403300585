//! Mocks: a tree tested with its leaves replaced, by rules in a JSON file whose patterns have stars.
#![tactic(auto)]

mod apart;
mod asked;
pub mod laws;
mod limits;
mod lookup;
mod names;
mod nodes;
mod patterns;
mod reading;
mod substituting;

pub use apart::told_apart;
pub use patterns::is_match;
pub use reading::read_rules;
pub use substituting::substitute;
