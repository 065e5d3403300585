//! Tests alone: whole visits of control nodes and decorators, and the dead nodes of trees.
#![tactic(auto)]

#[cfg(test)]
mod dead_nodes;
#[cfg(test)]
mod moves;
