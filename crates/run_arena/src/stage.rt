use crate::nodes::{Kept, Node};
use crate::notes::Notes;
use run_driver::{Drivers, FactTable};
use std::alloc::Global;
use tree_board::{Past, Recorded};

/// All that a part of an event reads and changes: the nodes of a runner's arena with what they keep,
/// its blackboard, the facts, the drivers, and the notes. It is made where a part begins, and all
/// below takes it as one value.
#[derive(Drop)]
pub struct Stage<'a, D: Drivers, P: Past> {
    pub alloc: Global,
    /// The time of the event, in milliseconds.
    pub moment: u64,
    /// The nodes, which never change.
    pub nodes: &'a [Node],
    pub kept: &'a mut [Kept],
    pub board: &'a mut Recorded<P>,
    pub facts: &'a mut FactTable,
    pub drivers: &'a mut D,
    pub notes: &'a mut Notes,
}
