//! A load: the tree and the world that are made from one number, its run, and the line that sums it up.

mod leaf;
mod nodes;
mod run;
mod summary;
mod tree;
mod world;

pub use run::run_load;
pub use tree::load_tree;
pub use world::load_world;
