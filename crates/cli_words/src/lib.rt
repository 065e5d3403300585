//! The words of the command line: which command they are.
#![tactic(auto)]

mod words;

pub use words::{Command, NoWords, Serve, read_command, read_serve, word_of, words_of};
