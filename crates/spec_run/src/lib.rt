//! Definitions: what a run is: the rules of the nodes, guards and scripts, leaves and their drivers, visits, halts, steps
//! and whole runs.
#![tactic(auto)]

mod block;
mod fault;
mod join_fault;
mod leaf;
mod memory;
mod moves;
mod note;
mod status;

pub use block::{Block, Header};
pub use fault::{Cause, NodeFault, NumericPort, RunFault};
pub use join_fault::JoinFault;
pub use leaf::{DriverKind, Instance, Phase, Reply, Totals};
pub use memory::{Counts, Memo, Memory, Pace, Recoveries, Rotation, Since, Turns};
pub use moves::{Heard, Move, Span, Then};
pub use note::Note;
pub use status::{Answer, RoundEnd, Status};
