use crate::ports::Ports;
use base_texts::{Items, Name, Shared};
use spec_script::{Script, Value};

/// The kind of a node.
#[derive(Clone, Copy, Debug, PartialEq, Eq)]
pub enum Kind {
    Sequence,
    SequenceWithMemory,
    ReactiveSequence,
    Fallback,
    ReactiveFallback,
    Parallel,
    /// A Switch with this number of cases, 2 to 6.
    Switch(u8),
    IfThenElse,
    WhileDoElse,
    RecoveryNode,
    PipelineSequence,
    RoundRobin,
    Inverter,
    ForceSuccess,
    ForceFailure,
    KeepRunningUntilFailure,
    Retry,
    Repeat,
    Timeout,
    Delay,
    RunOnce,
    RateController,
    SubTree,
    AlwaysSuccess,
    AlwaysFailure,
    ScriptNode,
    ScriptCondition,
    /// A leaf that a row of the world stands for.
    Leaf,
}

/// What a port is given: a literal, or the key of a blackboard entry.
#[derive(Debug, Drop)]
pub enum PortValue {
    Lit(Value),
    Key(Name),
}

/// A port of a node with its value.
#[derive(Debug, Drop)]
pub struct Port {
    pub name: Name,
    pub value: PortValue,
}

/// The pre- and postconditions of a node, each a script or none.
#[derive(Debug, Drop)]
pub struct Guards {
    pub failure_if: Option<Shared<Script>>,
    pub success_if: Option<Shared<Script>>,
    pub skip_if: Option<Shared<Script>>,
    pub while_true: Option<Shared<Script>>,
    pub on_success: Option<Shared<Script>>,
    pub on_failure: Option<Shared<Script>>,
    pub post: Option<Shared<Script>>,
    pub on_halted: Option<Shared<Script>>,
}

/// A node with all below it. Nodes are numbered from 1 in pre-order; the number is the node's uid.
#[derive(Debug, Drop)]
pub struct Term {
    pub kind: Kind,
    pub id: Name,
    pub name: Name,
    pub ports: Ports,
    pub code: Option<Shared<Script>>,
    pub guards: Guards,
    pub autoremap: bool,
    pub children: Items<Term>,
}

/// A tree: the ID of the main tree, and its term with every subtree in its place.
#[derive(Debug, Drop)]
pub struct Tree {
    pub main: Name,
    pub term: Term,
}
