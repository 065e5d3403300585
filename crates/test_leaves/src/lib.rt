//! Tests alone: what drivers answer, call by call, and runs of a host that holds its own drivers.
#![tactic(auto)]

#[cfg(test)]
mod leaves;
#[cfg(test)]
mod robots;
