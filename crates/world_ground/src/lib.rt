//! Ground files: world scripts that say their rows once for all values of a sort. Reads a ground file, makes the world
//! script that it stands for, and reads the world of that script.
#![tactic(auto)]

mod fill;
mod forms;
mod ground;
mod items;
mod lines;
mod make;
mod marks;
mod read;
mod reading;
mod sizes;
mod sort;
mod world;
mod write;

pub use ground::Ground;
pub use read::read_ground;
pub use world::world_of;
pub use write::write_ground;
