//! Writes the lines of a trace: what each event gave, in text, as whole lines to a sink.
#![tactic(auto)]

mod block;
mod label;
mod line;
mod mark;
mod names;
mod put;
mod short;
mod stop;
mod tail;
mod tree;
mod word;

pub use block::{write_block, write_changes, write_header, write_line, write_notes};
pub use line::put_long;
pub use names::{Names, names_of, no_names};
pub use put::{empty_line, put_bytes, put_number, put_quoted, put_signed};
pub use stop::TextStop;
pub use tree::write_tree;
pub use word::{put_cause, put_value};
