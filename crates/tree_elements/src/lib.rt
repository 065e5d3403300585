//! The elements that the bytes of a tree file spell.
#![tactic(auto)]

mod laws;
mod mark;
mod nest;
mod read;
mod reference;
mod scan;
mod spread;

pub use laws::{element_or_fault, one_element, spelled_elements_can_be_written};
pub use read::read_elements;
