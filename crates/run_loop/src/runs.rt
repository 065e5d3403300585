ghost use Rattle.std.specs.Prelude.{◌≡◌};

use run_arena::Arena;
use run_driver::FactTable;
use tree_board::Board;

/// A runner of a run: its arena and its blackboard.
#[derive(Debug, Drop)]
pub struct ReadyRunner {
    pub arena: Arena,
    pub board: Board,
}

/// The runners of a run, numbered from 1, and the facts that they share.
#[derive(Debug, Drop)]
pub struct Runs {
    pub runners: Vec<ReadyRunner>,
    pub facts: FactTable,
    /// The facts that the blocks of the run have told so far, by their number.
    pub told: Vec<i64>,
    /// The time of the last event, in milliseconds.
    pub last: u64,
    /// Whether another event may come: none has ended with a fault or for want of memory.
    pub usable: bool,
}

/// Whether another event may come: none has ended with a fault or for want of memory.
pub fn usable(runs: &Runs) -> bool
    ensures { result ≡ runs.now.usable }
{
    runs.usable
}
