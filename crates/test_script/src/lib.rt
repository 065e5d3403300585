//! Tests alone: tables of what texts are as scripts and give, and of files, sinks and clocks.
#![tactic(auto)]

#[cfg(test)]
mod compiled;
#[cfg(test)]
mod outside;
#[cfg(test)]
mod script;
