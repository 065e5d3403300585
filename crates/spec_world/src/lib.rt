//! Definitions: what a world is: facts, rows, goals and events.
#![tactic(auto)]

mod world;

pub use world::{Event, Fact, How, Out, Row, RowSort, Set, Telling, ToldOut, What, World};
