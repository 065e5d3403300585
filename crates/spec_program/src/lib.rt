//! Definitions: which command words are, what each command gives, and what `bt` promises of it.
#![tactic(auto)]

mod course;
mod exit;
mod file;
mod options;
mod print;
mod tree_fault;

pub use course::Course;
pub use exit::Exit;
pub use file::File;
pub use options::Options;
pub use print::Print;
pub use tree_fault::TreeFault;
