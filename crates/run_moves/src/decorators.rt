//! The next move of a decorator or a SubTree node: whether its child is reset, and whether it is
//! visited then or which answer is given.

mod decorator;
pub mod laws;
mod once;
mod rates;
mod turns;
mod waits;

pub use decorator::decorator_next;
