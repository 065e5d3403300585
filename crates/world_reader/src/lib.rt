//! The reader of world scripts: from the bytes of a file to the world that they describe; and laws: a file reads in one
//! way, and as a valid world.
#![tactic(auto)]

mod additions;
mod events;
mod forms;
pub mod laws;
mod read;
mod rounds;
mod rows;
mod tellings;
mod unique;

pub use forms::read_text;
pub use read::{read_script, read_world};
pub use rows::comparison;
pub use unique::{read_worlds_are_valid, worlds_read_one_way};
