//! Patterns with stars: whether a pattern matches a text.

mod ends;
mod grams;
mod matching;

pub use ends::{End, end_of, marks_of};
pub use grams::{Grams, gram_of};
pub use matching::{alike, follows, is_match, plain_len};
