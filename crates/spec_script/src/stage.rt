/// What is not closed yet.
#[derive(Clone, Copy, Debug, PartialEq, Eq)]
pub enum Opened {
    /// A parenthesis.
    Paren,
    /// A `?` that has no `:` yet.
    Choice,
    /// The expression that is the whole text: it is not closed, and no `;` comes after it.
    Whole,
}

/// Where reading stands.
#[derive(Clone, Copy, Debug, PartialEq, Eq)]
pub enum Stage {
    /// At the start of a statement, with no statement before it.
    Blank,
    /// At the start of a later statement.
    Start,
    /// After a name with which a statement begins.
    Named,
    /// Where an operand must stand.
    Before,
    /// After an operand.
    After,
}

/// Whether some tokens are a whole text.
#[derive(Clone, Copy, Debug, PartialEq, Eq)]
pub enum Verdict {
    Whole,
    /// They could go on to one.
    Unfinished,
    /// The token at this place is the first with which they could not.
    Stuck(u32),
}
