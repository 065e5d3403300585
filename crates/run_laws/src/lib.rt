//! Laws of the model: what holds of every state that a run can reach, that each part of an event
//! keeps it, and how many calls a visit makes.
#![tactic(auto)]

pub mod laws;
pub mod leaves;
