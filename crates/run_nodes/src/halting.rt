//! What stops: the halt and the reset of a node with all below it, and the quench of a runner.

mod calls;
mod endings;
pub mod laws;
mod quenching;
mod resetting;

pub use calls::quench;
pub use resetting::{halt, reset, reset_children};
