//! Tests alone: the dead nodes of trees.

mod dead;
