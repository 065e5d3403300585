use crate::note::Note;
use base_texts::Items;
use spec_script::Value;

/// The first line of a block: which event it is of, with its moment in milliseconds.
#[derive(Clone, Copy, Debug, PartialEq, Eq)]
pub enum Header {
    Tick {
        runner: u8,
        at: u64,
    },
    Halt {
        runner: u8,
        at: u64,
    },
    Change {
        fact: u32,
        value: i64,
        at: u64,
    },
    Finish {
        runner: u8,
        at: u64,
    },
    /// A leaf was told that it succeeded, or that it failed.
    Tell {
        runner: u8,
        uid: u32,
        succeeds: bool,
        at: u64,
    },
}

/// What one event gives to the trace.
#[derive(Debug, Drop)]
pub struct Block {
    pub header: Header,
    /// What happened, in order.
    pub notes: Items<Note>,
    /// The facts that changed, by their number, with their new values.
    pub facts: Items<(u32, i64)>,
    /// The blackboard entries that changed or are new: runner, slot and value.
    pub entries: Items<(u8, u32, Value)>,
}
