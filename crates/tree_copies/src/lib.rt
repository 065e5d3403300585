//! Equal copies of expressions, and shares of scripts and guards. Each call answers `NoMemory` (out of
//! memory) where an allocation fails, and else what is equal.
#![tactic(auto)]

mod nodes;
mod scripts;

pub use nodes::share_guards;
pub use scripts::{copy_expr, share_script};
