use crate::fault::Cause;
use crate::status::{Answer, Status};

/// What happened in an event, in the order in which it happened.
#[derive(Clone, Copy, Debug, PartialEq, Eq)]
pub enum Note {
    /// The node's status changed.
    Changed { uid: u32, old: Status, new: Status },
    /// The leaf's driver was called `start` and answered.
    Started { uid: u32, answer: Answer },
    /// The leaf's driver was called `running` and answered.
    Ran { uid: u32, answer: Answer },
    /// The leaf's driver was called `halted`.
    Halted { uid: u32 },
    /// The runner's tick ended with this answer.
    Root { runner: u8, answer: Answer },
    /// The runner's visit or halt ended in a fault.
    Faulted { runner: u8, uid: u32, cause: Cause },
    /// The leaf, which was held, was halted after a fault.
    Quenched { runner: u8, uid: u32 },
}
