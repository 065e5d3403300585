//! From a text to a script or an expression, or its first fault.
#![tactic(auto)]

mod build;
mod check;
mod identifier;
pub mod laws;
mod lexer;
mod naming;
mod reader;

pub use identifier::{is_identifier, is_identifier_start, is_white};
pub use reader::{parse_expr, parse_script};
