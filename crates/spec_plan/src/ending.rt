use base_texts::{Items, Name};
use spec_run::Cause;
use spec_tree::Tree;

/// How far planning may go.
#[derive(Clone, Copy, Debug, PartialEq, Eq)]
pub struct Limits {
    /// The most sequences that are added.
    pub expand: u32,
    /// The most ticks of one modelled run.
    pub ticks: u32,
    /// The time from one tick to the next, in milliseconds.
    pub period: u64,
}

/// An expansion of a condition, with the raises after it.
#[derive(Debug, Drop)]
pub struct Step {
    /// The number of the condition in the tree before the expansion.
    pub uid: u32,
    /// The IDs of the condition and of the action that was added behind it.
    pub condition: Name,
    pub action: Name,
    /// How often the new sequence was raised.
    pub raises: u32,
}

/// How planning ended.
#[derive(Debug, Drop)]
pub enum End {
    /// This tick of the tree's modelled run made all goals true.
    Reached { tree: Tree, tick: u32 },
    /// The tree failed, and these conditions failed in it, none of which has an untried template.
    NoTemplate { failed: Items<Name> },
    /// The action threatens the condition before it, and no raise is left.
    NoOrder { action: Name, condition: Name },
    /// The tree failed after this many expansions, which are as many as are allowed.
    Expansions { n: u32 },
    /// The tree neither failed nor reached the goals in this many ticks, which are as many as are allowed.
    StillRunning { ticks: u32 },
    /// The node of this number faulted in a modelled run.
    Faulted { uid: u32, cause: Cause },
}

/// The steps of a plan run, and how it ended.
#[derive(Debug, Drop)]
pub struct PlanEnd {
    pub steps: Items<Step>,
    pub end: End,
}
