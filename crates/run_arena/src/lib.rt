//! The arena on which trees run: the nodes of a runner's tree in one flat vector, what each keeps, and
//! the notes of an event with their reserve.
#![tactic(auto)]

mod arena;
mod block;
mod book;
mod copying;
mod frame;
mod joining;
pub mod laws;
mod laying;
mod leaves;
mod nodes;
mod notes;
mod ports;
mod resolving;
mod rows;
mod scripts;
mod source;
mod stage;
mod uids;

pub use arena::{
    Arena, keep, kept_by, leaf_count, memo, node, set_held, set_memo, set_status, status,
};
pub use block::{Block, block_for};
pub use copying::arena_after;
pub use frame::Frame;
pub use joining::{arena_of, first_arena_of};
pub use nodes::{Kept, Node, ReadyGuards, ReadyLeaf};
pub use notes::{Notes, notes_of};
pub use rows::{IndexedWorld, index_world};
pub use source::Source;
pub use stage::Stage;
pub use uids::Uids;
