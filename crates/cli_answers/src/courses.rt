//! A tree is joined with a world and the drivers, and is run on its course: by the world's script, in rounds by the
//! clock, as a load, or for what is expected of it.

mod expecting;
mod join;

pub use expecting::join_and_expect;
pub use join::join_and_run;
