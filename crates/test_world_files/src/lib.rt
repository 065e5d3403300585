//! Tests alone: what world scripts and ground files read as, and their faults.
#![tactic(auto)]

#[cfg(test)]
mod grounds;
#[cfg(test)]
mod tellings;
#[cfg(test)]
mod worlds;
