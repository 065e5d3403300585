use crate::syntax::BinOp;
use base_texts::{Name, Txt};

/// A token of a script.
#[derive(Debug, Drop)]
pub enum Token {
    Number(i64),
    Text(Txt),
    Word(Name),
    /// The sign of an operator between two operands. `-` stands before one operand too.
    Operator(BinOp),
    /// `!`
    Bang,
    /// `~`
    Tilde,
    /// `?`
    Question,
    /// `:`
    Colon,
    /// `(`
    Open,
    /// `)`
    Close,
    /// `;`
    Semicolon,
    /// `:=`
    Creates,
    /// `=`
    Assigns,
    /// `+=`, `-=`, `*=` or `/=`
    Changes(BinOp),
}

/// A token, and the place of its first byte.
#[derive(Debug, Drop)]
pub struct Placed {
    pub token: Token,
    pub place: u32,
}
