use crate::statements::Statements;
use base_texts::{Boxed, Name, Txt};

/// A comparison of two numbers, or of two texts byte by byte.
#[derive(Clone, Copy, Debug, PartialEq, Eq)]
pub enum Cmp {
    /// `==`
    Equal,
    /// `!=`
    Differ,
    /// `<`
    Less,
    /// `<=`
    AtMost,
    /// `>`
    More,
    /// `>=`
    AtLeast,
}

/// An operator before one operand.
#[derive(Clone, Copy, Debug, PartialEq, Eq)]
pub enum UnOp {
    /// `-`
    Neg,
    /// `!`
    Not,
    /// `~`
    Flip,
}

/// An operator between two operands.
#[derive(Clone, Copy, Debug, PartialEq, Eq)]
pub enum BinOp {
    /// `+`
    Add,
    /// `-`
    Sub,
    /// `*`
    Mul,
    /// `/`
    Div,
    /// `&&`
    And,
    /// `||`
    Or,
    /// `&`
    BitAnd,
    /// `|`
    BitOr,
    /// `^`
    BitXor,
    /// One of the six comparisons.
    Compare(Cmp),
}

/// An expression of the script language.
#[derive(Debug, Drop)]
pub enum Expr {
    /// A number.
    Num(i64),
    /// A text in single quotes.
    Lit(Txt),
    /// The entry of this name.
    Look(Name),
    /// An expression in parentheses.
    Group(Boxed<Expr>),
    Unary(UnOp, Boxed<Expr>),
    Binary(BinOp, Boxed<Expr>, Boxed<Expr>),
    /// `test ? then : else`
    Choose(Boxed<Expr>, Boxed<Expr>, Boxed<Expr>),
}

/// A statement of a script.
#[derive(Debug, Drop)]
pub enum Stmt {
    /// `NAME := E` writes the entry, new or not.
    Create(Name, Expr),
    /// `NAME = E` writes an entry that is there.
    Assign(Name, Expr),
    /// `NAME += E`, or `-=`, `*=`, `/=` in place of `+=`.
    Change(BinOp, Name, Expr),
    /// `E` is evaluated.
    Plain(Expr),
}

/// A script as it was written, with its statements.
#[derive(Debug, Drop)]
pub struct Script {
    pub text: Txt,
    pub stmts: Statements,
}
