//! Tests alone: tables of what words, tree files and world files are answered, where nothing is ticked for long.
#![tactic(auto)]

#[cfg(test)]
mod dead;
#[cfg(test)]
mod exclusive;
#[cfg(test)]
mod grounds;
#[cfg(test)]
mod limits;
#[cfg(test)]
mod mocked;
#[cfg(test)]
mod plans;
#[cfg(test)]
mod printed;
#[cfg(test)]
mod refusals;
#[cfg(test)]
mod words;
