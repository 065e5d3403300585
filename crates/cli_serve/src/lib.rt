//! Serves a session to a host: a tree is driven by the lines of an input, and each line is answered before the next one is
//! read.
#![tactic(auto)]

mod answer;
mod files;
mod over;
mod refusal;
mod request;
mod rows;
mod serving;

pub use files::serve_files;
pub use rows::told_world;
