//! A command of the command line, over a shelf of files, a sink, a clock and drivers: its files are read
//! and parsed, and what it asks for is printed, run or planned, or it is refused.
#![tactic(auto)]

mod command;
mod mocking;
mod reading;

pub use command::answer_words;
pub use reading::read_named;
