//! Definitions: what a text spells as a script, what it reads as or its first fault, and what a script means.
//! The types are those of its terms.
#![tactic(auto)]

mod cells;
mod fault;
mod stage;
mod statements;
mod syntax;
mod token;
mod value;

pub use cells::{Cells, Looks, Seen};
pub use fault::{ExecFault, ScriptFault};
pub use stage::{Opened, Stage, Verdict};
pub use statements::Statements;
pub use syntax::{BinOp, Cmp, Expr, Script, Stmt, UnOp};
pub use token::{Placed, Token};
pub use value::Value;
