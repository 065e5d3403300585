//! The reader of files of expectations: from the bytes of a file to what is expected of the run of a tree in a world, or the
//! first faulty line.
#![tactic(auto)]

mod answers;
mod forms;
pub mod laws;
mod leaves;
mod picks;
mod places;
mod read;
mod subject;

pub use read::read_expected;
