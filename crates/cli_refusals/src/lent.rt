//! What a command is lent of the outside.

mod outside;

pub use outside::Outside;
