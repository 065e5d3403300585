//! Definitions: what a session is, in which a host drives a tree event by event: what it keeps, which events it takes
//! and what each leaves, and what is told of its nodes.
#![tactic(auto)]

mod ended;
mod label;
mod open_fault;

pub use ended::{Ended, Misuse};
pub use label::Label;
pub use open_fault::OpenFault;
