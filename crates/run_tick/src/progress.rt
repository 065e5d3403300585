use spec_run::{Answer, Heard};

/// What comes next in a tick.
#[derive(Clone, Copy, Debug)]
pub enum Next {
    /// The node with this uid is visited: the root, or the child that the node on top of the stack
    /// waits for.
    Enter(u32),
    /// The node on top of the stack goes on with what it hears.
    GoOn(Heard),
    /// The node on top of the stack has answered.
    Back(Answer),
}

/// What a visit has come to when its node was entered.
#[derive(Clone, Copy, Debug)]
pub enum Entered {
    /// It goes on by its rule with what it hears, from the memo that it keeps: the beginning of its
    /// visit, or the answer of its first child.
    GoesOn(Heard),
    /// It has answered.
    Answers(Answer),
}

/// Where a visit is after nodes on the stack have gone on.
#[derive(Clone, Copy, Debug)]
pub enum Reached {
    /// At the child with this uid, which is visited: the node on top of the stack waits for it.
    Child(u32),
    /// At its end, with the answer of the root.
    End(Answer),
}
