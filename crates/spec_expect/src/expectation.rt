use base_texts::Items;
use spec_run::Answer;
use spec_script::{Cmp, Expr};

/// What is expected of a run. Leaves are told by marks: for each uid whether the node is one of them. Moments are in
/// milliseconds.
#[derive(Debug, Drop)]
pub enum Expectation {
    /// The expression is true before the first event and after every event.
    Always(Expr),
    /// The expression is true after the last event up to this moment.
    At {
        ms: u64,
        expr: Expr,
    },
    /// Some tick of the runner answers so, up to this moment.
    By {
        ms: u64,
        runner: u8,
        answer: Answer,
    },
    /// No tick of the runner answers so.
    NeverAnswers {
        runner: u8,
        answer: Answer,
    },
    /// Wherever such a leaf is started, the expression is true.
    StartsOnly {
        leaves: Items<bool>,
        expr: Expr,
    },
    /// So many starts of such leaves compare so.
    Starts {
        leaves: Items<bool>,
        op: Cmp,
        count: u64,
    },
    /// Some call of such a leaf answers so, up to this moment.
    Ends {
        leaves: Items<bool>,
        answer: Answer,
        ms: u64,
    },
    /// No leaf of the first ones is held together with another one, of the second ones.
    NeverWith {
        first: Items<bool>,
        second: Items<bool>,
    },
    /// No leaf of the second ones starts before one of the first ones has succeeded.
    Order {
        first: Items<bool>,
        second: Items<bool>,
    },
}

/// An expectation, with its line in the file, counted from 1.
#[derive(Debug, Drop)]
pub struct Expected {
    pub line: u32,
    pub expectation: Expectation,
}
