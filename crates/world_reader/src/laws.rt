//! The laws of world scripts.

pub use crate::unique::{read_worlds_are_valid, worlds_read_one_way};
