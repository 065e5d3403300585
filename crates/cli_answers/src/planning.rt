//! A plan for the goals of a world, over the drivers that are lent, and its lines.

mod plan_lines;
mod planning;

pub use planning::plan_and_print;
