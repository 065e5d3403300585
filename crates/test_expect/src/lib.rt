//! Tests alone: tables of expectations, with what is told of each, and of faulty files.
#![tactic(auto)]

#[cfg(test)]
mod refusals;
#[cfg(test)]
mod verdicts;
