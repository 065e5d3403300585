//! Tests alone: what tree files and mock rules read as, and their faults.
#![tactic(auto)]

#[cfg(test)]
mod build;
#[cfg(test)]
mod elements;
#[cfg(test)]
mod manifest;
#[cfg(test)]
mod mocks;
