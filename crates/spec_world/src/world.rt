use base_texts::{Items, Name};
use spec_script::{Cmp, Expr, Value};

/// A fact of the world and its opening value.
#[derive(Debug, Drop)]
pub struct Fact {
    pub name: Name,
    pub opening: i64,
}

/// How an effect changes its fact.
#[derive(Clone, Copy, Debug, PartialEq, Eq)]
pub enum How {
    /// The fact gets the value.
    To,
    /// The value is added to the fact.
    By,
}

/// An effect on the fact of this number.
#[derive(Clone, Copy, Debug, PartialEq, Eq)]
pub struct Set {
    pub fact: u32,
    pub how: How,
    pub value: i64,
}

/// An output: the port of this name gets the value of the expression.
#[derive(Debug, Drop)]
pub struct Out {
    pub port: Name,
    pub expr: Expr,
}

/// How a row answers.
#[derive(Debug, Drop)]
pub enum RowSort {
    /// A condition that compares the fact of this number.
    Is { fact: u32, op: Cmp, value: i64 },
    /// A condition that is true where the expression is not 0.
    When(Expr),
    /// An action that lasts `ms` milliseconds, and then fails where `fails` is not 0.
    Timed { ms: u64, fails: Option<Expr> },
    /// An action that lasts as many milliseconds as `length` gives where it begins, and then fails where `fails` is not 0.
    TimedBy { length: Expr, fails: Option<Expr> },
    /// An action that lasts `ms` milliseconds, and then succeeds or fails by the next outcome.
    Replay { ms: u64, outcomes: Items<bool> },
    /// An action that is held until the expression is not 0.
    Gate(Expr),
    /// A condition that answers what it was told last.
    Sensed,
    /// An action that is held until it is told how it ended; the outputs for which it may be told a value.
    Told { outs: Items<Name> },
}

/// A row of the world: what the leaves of its ID do.
#[derive(Debug, Drop)]
pub struct Row {
    pub id: Name,
    pub ports: Items<Name>,
    pub sort: RowSort,
    /// The rows of the conditions that the action needs, which the planner alone reads.
    pub needs: Items<u32>,
    pub sets: Items<Set>,
    pub outs: Items<Out>,
}

/// A value that is told for the output of this name.
#[derive(Debug, Drop)]
pub struct ToldOut {
    pub port: Name,
    pub value: Value,
}

/// What a leaf is told from outside: how it ended, or whether it holds.
#[derive(Debug, Drop)]
pub enum Telling {
    /// SUCCESS, with values for some of its outputs.
    Success(Items<ToldOut>),
    Failure,
}

/// What an event does.
#[derive(Debug, Drop)]
pub enum What {
    /// Ticks this runner.
    Tick(u8),
    /// Halts this runner.
    Halt(u8),
    /// Changes the fact of this number.
    Change {
        fact: u32,
        value: i64,
    },
    /// Tells the leaf of this uid of a runner.
    Tell {
        runner: u8,
        uid: u32,
        telling: Telling,
    },
}

/// An event at its moment, in milliseconds.
#[derive(Debug, Drop)]
pub struct Event {
    pub at: u64,
    pub what: What,
}

/// A world script as it was read. Facts, rows and goals are numbered from 0 in the file's order.
#[derive(Debug, Drop)]
pub struct World {
    pub facts: Items<Fact>,
    pub rows: Items<Row>,
    pub goals: Items<u32>,
    pub runners: u8,
    pub events: Items<Event>,
}
