use crate::status::{Answer, Status};
use base_texts::Items;

/// What a node keeps between visits beside its status. A memo that is cleared is `Nothing`.
#[derive(Clone, Copy, Debug, PartialEq, Eq)]
pub enum Memo {
    Nothing,
    /// Of the Sequence and Fallback kinds: the child that comes next, and whether some child has
    /// answered other than SKIPPED since the node started. Of PipelineSequence: the farthest child that
    /// has answered RUNNING since the node started, and whether some child has answered other than
    /// SKIPPED in the present visit.
    Index { at: u32, seen: bool },
    /// Of Parallel: its thresholds, and its counts so far.
    Counts(Counts),
    /// Of Switch and IfThenElse: the chosen child.
    Chosen(Option<u32>),
    /// Of Retry and Repeat: its turns.
    Turns(Turns),
    /// Of Timeout and Delay: its start and its length.
    Since(Since),
    /// Of RunOnce: the answer that it has given.
    Finished(Option<Answer>),
    /// Of RecoveryNode: its recoveries.
    Recoveries(Recoveries),
    /// Of RoundRobin: its rotation.
    Rotation(Rotation),
    /// Of RateController: its pace.
    Pace(Pace),
}

/// The thresholds of a Parallel, and its counts so far.
#[derive(Clone, Copy, Debug, PartialEq, Eq)]
pub struct Counts {
    /// The success count: so many children are to answer SUCCESS.
    pub need: u32,
    /// The failure count: so many children that answer FAILURE end the node.
    pub most: u32,
    /// Whether the written success count is negative, so that skipped children count towards it.
    pub skips: bool,
    pub successes: u32,
    pub failures: u32,
    /// The children that were skipped in the present visit; 0 between visits.
    pub skipped: u32,
}

/// The turns of a Retry or Repeat that are done, and their limit, or -1 for none.
#[derive(Clone, Copy, Debug, PartialEq, Eq)]
pub struct Turns {
    pub done: u32,
    pub limit: i64,
}

/// The moment of a Timeout's or Delay's start, and its length, in milliseconds.
#[derive(Clone, Copy, Debug, PartialEq, Eq)]
pub struct Since {
    pub first: u64,
    pub length: u64,
}

/// The recoveries of a RecoveryNode that are done, and the most that it makes.
#[derive(Clone, Copy, Debug, PartialEq, Eq)]
pub struct Recoveries {
    pub done: u32,
    pub limit: u32,
    /// Whether the second child is at hand, and not the first.
    pub recovers: bool,
}

/// The child of a RoundRobin that is at hand, how many children before it have failed or were skipped
/// in a row since the start, and how many of them were skipped.
#[derive(Clone, Copy, Debug, PartialEq, Eq)]
pub struct Rotation {
    pub at: u32,
    pub passed: u32,
    pub skipped: u32,
}

/// The pace of a RateController. It is of no account while the node is IDLE.
#[derive(Clone, Copy, Debug, PartialEq, Eq)]
pub struct Pace {
    /// The moment of the child's last SUCCESS, or of the start, in milliseconds.
    pub first: u64,
    /// How often the child is visited at most, in thousandths of a hertz.
    pub rate: u32,
    /// Whether the child is visited whatever the moment is: it has not been visited since the start, or
    /// it is RUNNING.
    pub due: bool,
}

/// The memory of a node and of all below it, in the shape of its term.
#[derive(Debug, Drop)]
pub struct Memory {
    pub status: Status,
    pub memo: Memo,
    pub children: Items<Memory>,
}
