//! Laws of world scripts: a file reads in one way, and as a valid world.

mod laws;

pub use laws::{read_worlds_are_valid, worlds_read_one_way};
