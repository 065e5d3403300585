//! Definitions: what a file of expectations reads as, what each of its lines says of a run, when it is lost, and what is
//! printed of it.
#![tactic(auto)]

mod expect_fault;
mod expectation;
mod place;
mod verdict;

pub use expect_fault::{ExpectFault, ExpectFaultKind};
pub use expectation::{Expectation, Expected};
pub use place::{Pick, Place};
pub use verdict::Verdict;
