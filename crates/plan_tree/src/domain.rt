//! What planning knows of a world: its tests, its templates, and which effects achieve a test or
//! threaten it.

mod effects;
mod template;

pub use effects::{achieves, threatens};
pub use template::{templates, test_of};
