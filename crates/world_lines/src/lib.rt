//! The lines of world scripts, and what stands in a line: words, numbers, names, heads of rows, expressions, values
//! that are told, and parts of rounds.
#![tactic(auto)]

mod exprs;
mod gaps;
mod head;
mod lines;
mod names;
mod numbers;
mod quoted;
mod rounds;
mod told;
mod values;

pub use exprs::numeric;
pub use gaps::words;
pub use head::{Head, head_in};
pub use lines::{
    after_gap, content, cut, is, is_apart, is_ignored, is_line, parts, trimmed, without_rest,
};
pub use names::{is_name, name_of, names_of};
pub use numbers::{int, ms, one_of, step, uid};
pub use quoted::text_to_quote;
pub use rounds::{WrittenPart, parts_in};
pub use told::outs_in;
pub use values::{Numeral, Written, WrittenOut};
