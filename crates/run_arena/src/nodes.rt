use crate::source::Source;
use crate::uids::Uids;
use base_texts::{Items, Shared};
use run_driver::ReadyRow;
use script_code::Code;
use spec_run::{Memo, Status};
use spec_tree::Kind;

/// The pre- and postconditions of a node, compiled for the scope in which it stands.
#[derive(Debug, Drop)]
pub struct ReadyGuards {
    /// Whether the node has one of the four guards that may answer before a visit. Most nodes have
    /// none, and this is the one test for them.
    pub before: bool,
    /// Whether the node has one of the three that run after an answer.
    pub after: bool,
    pub failure_if: Option<Code>,
    pub success_if: Option<Code>,
    pub skip_if: Option<Code>,
    pub while_true: Option<Code>,
    pub on_success: Option<Code>,
    pub on_failure: Option<Code>,
    pub post: Option<Code>,
    pub on_halted: Option<Code>,
}

/// What a leaf with a driver has in addition to its node.
#[derive(Debug, Drop)]
pub struct ReadyLeaf {
    /// What is ready of its row, which leaves of one row share.
    pub row: Shared<ReadyRow>,
    /// The place of its driver in the roster.
    pub driver: usize,
    /// The number of its instance there.
    pub instance: u32,
    /// What the input ports of the row are given, in the row's order.
    pub inputs: Items<Source>,
    /// What the ports of the outputs are given, in the row's order: of those that the row works out, or of those for
    /// which values are told.
    pub outputs: Items<Source>,
}

/// A node of an arena: what a visit or a halt needs of it, and what never changes.
#[derive(Debug, Drop)]
pub struct Node {
    pub kind: Kind,
    /// How many nodes there are in all: this one and those below it. Its children come after it,
    /// each after all that is below the child before.
    pub size: u32,
    /// How many children it has.
    pub children: u32,
    /// The uids of the children, by their place.
    pub child_uids: Uids,
    pub code: Option<Code>,
    /// Its guards, which nodes without any share.
    pub guards: Shared<ReadyGuards>,
    /// What the ports of a built-in node are given, in the order of its kind's ports.
    pub ports: Items<Source>,
    pub leaf: Option<ReadyLeaf>,
}

/// What a node keeps.
#[derive(Clone, Copy, Debug, PartialEq, Eq)]
pub struct Kept {
    pub status: Status,
    pub memo: Memo,
    /// The mark of a leaf whose instance its driver holds.
    pub held: bool,
}
