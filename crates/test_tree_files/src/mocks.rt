//! Tests alone: the patterns, the reading and the substitution of mock rules.

mod files;
mod patterns;
mod trees;
