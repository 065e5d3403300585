//! Definitions: what the bytes of a world script and of a ground file read as, or their first fault.
#![tactic(auto)]

mod ground_fault;
mod open_block;
mod sort;
mod world_fault;

pub use ground_fault::GroundFault;
pub use open_block::OpenBlock;
pub use sort::Sort;
pub use world_fault::{WorldFault, WorldFaultKind};
