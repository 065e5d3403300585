//! Definitions: what is told of the outside: bytes of files, lines of an input, bytes that are written, moments, and
//! counts of faults.
#![tactic(auto)]

mod line_fault;
mod shelf_fault;

pub use line_fault::LineFault;
pub use shelf_fault::ShelfFault;
