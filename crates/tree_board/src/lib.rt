//! Blackboards. Each key that a tree names, in the scope in which it is named, is resolved once to
//! the slot of its cell. A board holds a value, or none, for each slot, and follows nothing at run
//! time. In an event it keeps what the slots held that are written.
#![tactic(auto)]

mod board;
mod counting;
mod keys;
mod limit;
mod naming;
mod numbers;
mod order;
mod recorded;
mod rows;
mod scope;
mod slots;

pub use board::{Board, board_of};
pub use limit::is_within_slots;
pub use recorded::{Past, Recorded};
pub use scope::begins_private;
pub use slots::{Slots, cells, no_slots, slot, slot_count, slots_of};
